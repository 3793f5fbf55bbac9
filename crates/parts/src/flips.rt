// The flips that are made on the way to a pattern.
ghost use Rattle.std.specs.Prelude.{◌≡◌, ◌^◌, ◌<◌};
ghost use Rattle.field.specs.Field.{◌⊕◌};

use ranks::Rank;

// The ranks that are flipped, bit j for rank j, and the non-binary part of the pattern in which all others are kept.
#[derive(Clone, Copy)]
pub struct Flips {
    pub ranks: u64,
    pub part: u16,
}

impl Flips {
    // One flip more, of this rank, whose column has this part.
    pub fn with(self, rank: Rank, part: u16) -> Flips
        requires { rank.0 < 64 }
        ensures { (result.ranks ≡ self.ranks ⊕ 2 ^ rank.0) × (result.part ≡ self.part ⊕ part) }
    {
        let bit = 1u64 << rank.0;
        Flips {
            ranks: self.ranks ^ bit,
            part: self.part ^ part,
        }
    }
}
