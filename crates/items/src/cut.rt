// A line, item by item.
ghost use Rattle.std.specs.Prelude.{◌<◌, length, IfSome, take};
ghost use Rattle.std.specs.Iterator.{YieldsFirstRef, item_count};
ghost use Rattle.items.specs.Cut.{FirstSpace, left_of};

// The items of what is left of a line, if anything is. An item of five bytes is no number, whatever follows, so it ends them.
#[derive(Clone, Copy)]
pub struct Items<'t>(pub Option<&'t [u8]>);

// The place of the first space among the first five bytes, where there are so many: with their number known, which fails at the end of a
// line alone, no byte needs a test of its own whether it is there.
#[inline]
fn first_space(text: &[u8]) -> Option<usize>
    ensures within { IfSome result (λ i. i < length text.now) }
    ensures first { FirstSpace (take 5 text.now) result }
{
    if text.len() < 5 {
        text.iter().position(|b| *b == b' ')
    } else {
        text[..5].iter().position(|b| *b == b' ')
    }
}

impl<'t> Iterator for Items<'t> {
    type Item = &'t [u8];

    ghost next_gives = { YieldsFirstRef (λ s. left_of s.0) };

    ghost remaining = { item_count (λ s. left_of s.0) };

    #[inline]
    fn next(&mut self) -> Option<&'t [u8]> {
        let text = self.0?;
        match first_space(text) {
            Some(end) => {
                self.0 = Some(&text[end + 1..]);
                Some(&text[..end])
            }
            None => {
                self.0 = None;
                Some(&text[..text.len().min(5)])
            }
        }
    }
}
