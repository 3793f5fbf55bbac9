// What one pattern of flipped ranks makes: its symbols outside the reliable set, and the candidate if all are 0 or 1. Numbers are widened
// by `as`, which a proof reads at once, where `From` leaves it the clause of a call. That ranks and a table are a prepared word's own
// speaks of two values, and stands in clauses.
ghost use Rattle.std.specs.Prelude.{◌≡◌, ◌+◌, ◌^◌, ◌<◌};
ghost use Rattle.search.specs.Best.{better};
ghost use Rattle.search.specs.ByRank.{rank_weighed, tried};
ghost use Rattle.prepare.specs.PlanOf.{plan_of};
ghost use Rattle.candidates.specs.As.{as_best, as_weighed, most_counted};

use crate::best::{Best, Candidate};
use prepare::Prepared;
use prepare::ones::Ones;
use ranks::Rank;
use table::Symbols;

// The soft distance of the word that differs from the hard decisions at these ranks, bit j for rank j.
fn weigh(p: Prepared, ranks: u64) -> u16
    requires { ranks < 2 ^ (p.size + p.rows) }
    ensures { result ≡ (rank_weighed (plan_of p) ranks).distance }
{
    let weight = p.weight;
    let mut distance: u16 = 0;
    for rank in Ones(ranks) {
        distance += weight[rank] as u16;
    }
    distance
}

// That word, with its distance and the number of these ranks, which is counted on the way, as the definition sums it.
fn placed(p: Prepared, ranks: u64, distance: u16) -> Candidate
    requires { (ranks < 2 ^ (p.size + p.rows)) × (distance ≡ (rank_weighed (plan_of p) ranks).distance) }
    ensures { as_weighed result ≡ rank_weighed (plan_of p) ranks }
{
    let mut word = u64::from_le_bytes(p.hards);
    let mut flips: u8 = 0;
    for i in Ones(ranks) {
        let rank = Rank(i as u8);
        let position = ranks::position_at(p.order, rank);
        word ^= 1u64 << position.0;
        flips += 1;
    }
    Candidate {
        word,
        distance,
        flips,
    }
}

// One more candidate is seen, the word that differs from the hard decisions at these ranks.
fn candidate(p: Prepared, ranks: u64, best: &mut Best)
    requires { (ranks < 2 ^ (p.size + p.rows)) × (best.old.count < most_counted) }
    ensures { as_best best.new ≡ better (as_best best.old) (rank_weighed (plan_of p) ranks) }
{
    let distance = weigh(p, ranks);
    if best.nearer(distance) {
        *best = best.counting();
    } else {
        *best = best.with(placed(p, ranks, distance));
    }
}

// One more pattern is seen, that in which the ranks of `flips` are flipped: it is dropped at its first symbol other than 0 or 1, which is
// known when the inner loop has no flip left, and from there the label leaves both loops, as document 01 ('Form by location') names it: so
// the inner loop is no `for`, which would have ended by then. The table `symbols` is that of the prepared word, lent, and `base` stands in
// a variable: read from the prepared word they had it copied at each pattern, which made a decode up to 70 % longer at order 3. `pattern`
// is kept out of its caller, `keep`, which calls itself: there it made a decode up to twice as long at order 3.
#[inline(never)]
pub fn pattern(p: Prepared, symbols: &Symbols, flips: u64, best: &mut Best)
    requires { (symbols.now ≡ p.symbols) × (flips < 2 ^ p.size) × (best.old.count < most_counted) }
    ensures { as_best best.new ≡ tried (plan_of p) flips (as_best best.old) }
{
    let base = p.base;
    let bits = 'outside: {
        let mut bits: u64 = 0;
        for q in 0..p.rows as usize {
            let mut symbol = base[q];
            let mut left = Ones(flips);
            loop {
                let Some(rank) = left.next() else {
                    if 1 < symbol {
                        break 'outside None;
                    }
                    break;
                };
                symbol ^= symbols[q * 63 + rank];
            }
            bits ^= (symbol as u64) << q;
        }
        Some(bits)
    };
    let Some(bits) = bits else {
        return;
    };
    candidate(p, flips ^ ((bits ^ p.sides as u64) << p.size), best);
}
