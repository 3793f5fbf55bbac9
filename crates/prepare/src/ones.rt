// The set bits of a word.
ghost use Rattle.std.specs.Iterator.{at_most};
ghost use Rattle.prepare.specs.Ones.{TakesLowest};

// The places of the bits that are set, the lowest first: each turn clears its bit.
#[derive(Clone, Copy)]
pub struct Ones(pub u64);

impl Iterator for Ones {
    type Item = usize;

    ghost remaining = { λ s. at_most s.0 };

    ghost next_gives = { λ s r t. TakesLowest s.0 r t.0 };

    #[inline]
    fn next(&mut self) -> Option<usize> {
        if self.0 == 0 {
            return None;
        }
        let lowest = self.0.trailing_zeros() as usize;
        self.0 &= self.0 - 1;
        Some(lowest)
    }
}
