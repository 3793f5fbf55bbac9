// What is by position, by rank.
ghost use Rattle.std.specs.Prelude.{◌≤◌};
ghost use Rattle.prepare.specs.Inner.ByRank.{Inside, Gathers};

use ranks::Position;

// The reliability of each rank, and the hard decisions, bit i for rank i.
#[derive(Clone, Copy)]
pub struct ByRank {
    pub weight: [u8; 63],
    pub bits: u64,
}

// All in one pass, from the last rank to the first: each bit goes in below those of the ranks after it. The pass goes along the order
// itself, since a call of `position_at` would copy it at each turn. n stands beside the order, as `Gathers` has it.
pub fn gather(order: &[Position; 63], reliability: &[u8; 63], hards: u64, n: usize) -> ByRank
    requires { (n ≤ 63) × Inside n order.now }
    ensures { Gathers n reliability.now hards order.now result }
{
    let mut weight = [0u8; 63];
    let mut bits: u64 = 0;
    for i in (0..n).rev() {
        let position = order[i].0 as usize;
        weight[i] = reliability[position];
        bits = bits * 2 + (hards >> position) % 2;
    }
    ByRank { weight, bits }
}
