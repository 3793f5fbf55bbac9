// All patterns with few flips: each reliable rank, from rank 0 on, is either kept or flipped. Numbers are widened by `as`, which a proof
// reads at once, where `From` leaves it the clause of a call.
ghost use Rattle.std.specs.Prelude.{◌≡◌, ◌+◌, ◌-◌, ◌^◌, ◌<◌, ◌≤◌};
ghost use Rattle.field.specs.Field.{◌⊕◌};
ghost use Rattle.search.specs.Search.{patterns};
ghost use Rattle.search.specs.ByRank.{rank_searched};
ghost use Rattle.prepare.specs.PlanOf.{plan_of};
ghost use Rattle.candidates.specs.As.{as_best, most_counted};
ghost use Rattle.parts.specs.Parts.{Made};
ghost use Rattle.parts.specs.Chains.{Tabled};
ghost use Rattle.osd.specs.Inner.BestFrom.{best_from};

use candidates::best::Best;
use candidates::pattern::pattern;
use parts::chains::{Chains, chain, next_flip, slot};
use parts::columns::{Parts, base_part, parts_of};
use parts::flips::Flips;
use prepare::Prepared;
use ranks::Rank;
use table::Symbols;

// How many ranks are linked in the chains: none where no flip is allowed, since nothing is looked up then.
fn linked(size: u8, order: u8) -> usize
    ensures { (result ≤ size) × (order ≡ 0 → result ≡ 0) × ((order ≡ 0 → ⊥) → result ≡ size) }
{
    if order == 0 { 0 } else { size as usize }
}

// The best over the patterns of the ranks from `rank` on with at most `may` flips among them, after the flips that are made. The
// definition keeps each rank before it flips it, from `rank` on: so it comes first to the pattern that keeps them all, then to those whose
// first flip is the last rank, then to those whose first flip is the rank before that. The same here: the pattern with all of them
// kept, then `flip` for each rank as the first flip, from the last one back, but for those that `next_flip` passes over, which lead to
// no candidate. The best goes by value and comes back whole: lent through all calls it had the prepared word copied at each call of keep,
// which made a decode up to 10 % longer at order 3. What is lent goes along as three references: as one struct, tried with the prepared
// word lent too, it made a decode 2 to 4 % longer at order 0, where the chains were then copied, and took 576 bytes of stack more.
#[cycle(flip_keep)]
fn keep(
    p: Prepared,
    symbols: &Symbols,
    parts: &Parts,
    chains: &Chains,
    rank: Rank,
    may: u8,
    flips: Flips,
    mut best: Best,
) -> Best
    requires fits { (symbols.now ≡ p.symbols) × Made p flips × (0 < may → Tabled p parts.now chains.now) }
    requires rank_le_size { (rank.0 ≤ p.size) × (best.count + patterns (p.size - rank.0) may ≤ most_counted) }
    ensures { as_best result ≡ best_from p rank.0 may flips.ranks (as_best best) }
{
    let size = p.size;
    pattern(p, symbols, flips.ranks, &mut best);
    if may == 0 {
        return best;
    }
    let part = flips.part;
    let mut end = next_flip(parts, chains, part, rank, Rank(size), slot(part), may);
    // Not a `for`: which rank comes next is what `next_flip` finds, and no run of numbers.
    while rank.0 < end.0 {
        let last = Rank(end.0 - 1);
        best = flip(p, symbols, parts, chains, last, may, flips, best);
        end = next_flip(parts, chains, part, rank, last, last.0 as usize, may);
    }
    best
}

// The same, over the patterns in which `rank` itself is flipped: one flip is used up.
#[cycle(flip_keep)]
fn flip(
    p: Prepared,
    symbols: &Symbols,
    parts: &Parts,
    chains: &Chains,
    rank: Rank,
    may: u8,
    flips: Flips,
    best: Best,
) -> Best
    requires fits { (symbols.now ≡ p.symbols) × Made p flips × Tabled p parts.now chains.now }
    requires rank_lt_size { (rank.0 < p.size) × (0 < may) × (best.count + patterns (p.size - (rank.0 + 1)) (may - 1) ≤ most_counted) }
    ensures { as_best result ≡ best_from p (rank.0 + 1) (may - 1) (flips.ranks ⊕ 2 ^ rank.0) (as_best best) }
{
    let made = flips.with(rank, parts[rank.0 as usize]);
    let next = Rank(rank.0 + 1);
    keep(p, symbols, parts, chains, next, may - 1, made, best)
}

// The best over all patterns of the reliable ranks with at most `order` flips. Parts and chains are made at order 0 too, the chains empty,
// though nothing reads them there: so keep is entered in one way at every order.
pub fn search(p: Prepared, order: u8) -> Best
    requires { order ≤ 3 }
    ensures { as_best result ≡ rank_searched (plan_of p) order }
{
    let symbols = p.symbols;
    let told = (p.rows / 2) as usize;
    let parts = parts_of(&symbols, told);
    let chains = chain(&parts, linked(p.size, order));
    let part = base_part(p.base, told);
    keep(
        p,
        &symbols,
        &parts,
        &chains,
        Rank(0),
        order,
        Flips { ranks: 0, part },
        Best::none(),
    )
}
