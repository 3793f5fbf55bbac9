// What a word is received under: a code, how much it is shortened, and the order of the search.
ghost use Rattle.std.specs.Prelude.{◌≤◌};

// The codewords of a code, the lowest first, and its t; the number of unsent places; the order.
#[derive(Clone, Copy)]
pub struct Setting<'a> {
    pub codewords: &'a [u64],
    pub t: u16,
    pub s: u16,
    pub order: u16,
    // no more places are unsent than there are
    ghost shortened: { s ≤ 15 },
}
