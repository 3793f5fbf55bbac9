// The ranks in chains, each with the ranks whose columns' parts have one slot: the last flip is looked up by its part, and a flip that
// leads nowhere is told without a walk over the ranks after it. At t = 3 a slot is ten of the part's 11 to 13 bits, so what is looked up
// there may yet be dropped.
ghost use Rattle.std.specs.Prelude.{◌≡◌, ◌≤◌, ◌<◌};
ghost use Rattle.parts.specs.Chains.{slot_of, Chained, At, Next};

use crate::columns::Parts;
use ranks::Rank;

// 64 links, one for each rank, and after them 1,024 slots. Each is an end, 0 for none: ends are compared as numbers, and 0 needs no case of
// its own, where an Option would have one at each look-up.
pub type Chains = [u8; 1088];

// Where the chains have the slot of a part.
pub fn slot(part: u16) -> usize
    ensures { (result ≡ slot_of part) × (result < 1088) }
{
    usize::from(part % 1024) + 64
}

// The chains of the ranks: for each rank one more than the rank before it in its slot, and for each slot one more than its last rank;
// 0 where there is none. `size` stands beside the parts, as `Chained` has it.
pub fn chain(parts: &Parts, size: usize) -> Chains
    requires { size ≤ 64 }
    ensures { Chained parts.now size result }
{
    let mut chains = [0u8; 1088];
    for j in 0..size {
        let s = slot(parts[j]);
        chains[j] = chains[s];
        chains[s] = j as u8 + 1;
    }
    chains
}

// Which rank is flipped next, of those from `from` on and before `to`, the last one first. What is given is an end: the rank before it is
// flipped, and where it is `from` there is none. With one flip left the rank is looked up in the chains at `at`, which is the part's slot
// at first and then the rank that was flipped last; with two it is the next whose flip may lead to a candidate; with more the next one.
// An end and no Option<Rank>: that was tried, proved, and made a decode 6 to 23 % longer at order 3.
pub fn next_flip(
    parts: &Parts,
    chains: &Chains,
    part: u16,
    from: Rank,
    to: Rank,
    at: usize,
    may: u8,
) -> Rank
    requires { (from.0 ≤ to.0) × (to.0 ≤ 64) × (0 < may) × (at < 1088) × At parts.now chains.now part to.0 at may }
    ensures { Next parts.now chains.now part from.0 to.0 may result.0 }
{
    if may == 1 {
        return Rank(from.0.max(chains[at]));
    }
    if 2 < may {
        return to;
    }
    for j in (from.0..to.0).rev() {
        let after = part ^ parts[usize::from(j)];
        if after == 0 || j + 1 < chains[slot(after)] {
            return Rank(j + 1);
        }
    }
    from
}
