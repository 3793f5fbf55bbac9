// The symbol table, by exponents. A cell is a quotient of products over the places outside (codes/specs/Lagrange, `short_cell`). The
// factors a^u that their sums have by Zech's logarithms z are the same above and below: the exponent of the cell of position p, in
// the row of the place u, is e(p) - e(u) - z(p-u), with e as products.rt makes it.
#![tactic(auto)]

ghost use Rattle.std.specs.Prelude.{◌≡◌, ◌<◌, ◌≤◌, length};
ghost use Rattle.ranks.specs.Places.{place_in};
ghost use Rattle.table.specs.Exponents.{Below, Outside};
ghost use Rattle.table.specs.Table.{PutsRow, CellExponents, PutsColumn, Numbered, Cells};

use ranks::{Position, Rank};

mod products; // products as sums of exponents

use products::Logs;

// The table: what a 1 at rank j adds to the symbol of row q, at q * 63 + j.
pub type Symbols = [u8; 378];

// Row q's exponents, of every position: n keeps the difference from going below 0, so that it is below 2n. The row's place has the
// exponent `own`, and `from` is where its run of Zech's logarithms starts.
fn put_row(logs: Logs, list: &[u8; 64], from: usize, own: u8, q: usize, rows: &mut [u8; 384])
    requires n_bound { (from ≤ 63) × (own < logs.n) × (q < 6) × Below logs.n 64 list.now }
    requires rows_len { (length rows.old ≡ 384) × Below 128 384 rows.old }
    ensures { PutsRow logs.entry.n from own q logs.entry.zech.now list.now rows.old rows.new }
{
    for p in 0..64 {
        let less = logs.plus(own, logs.zech[from + p]);
        rows[q * 64 + p] = list[p] + logs.n - less;
    }
}

// All rows, one for each place outside.
fn cell_exponents(logs: Logs, outside: &[Position]) -> [u8; 384]
    requires { Outside logs.n (length outside.now) (place_in outside.now) }
    ensures { CellExponents logs.entry.n logs.entry.zech.now (place_in outside.now) (length outside.now) (length outside.now) result }
{
    let mut table = [0u8; 384];
    let list = logs.of_positions(outside);
    for (q, place) in outside.iter().enumerate() {
        let own = list[usize::from(place.0)];
        let from = usize::from(logs.n - place.0);
        put_row(logs, &list, from, own, q, &mut table);
    }
    table
}

// The column of a rank, whose position is given. All six rows, used or not: their number is known, so that the loop is unrolled.
fn put_column(
    powers: &[u8; 128],
    exponents: &[u8; 384],
    position: Position,
    rank: Rank,
    table: &mut Symbols,
)
    requires { (position.0 < 64) × (rank.0 < 63) × Below 128 384 exponents.now × (length table.old ≡ 378) }
    ensures { PutsColumn position.0 rank.0 powers.now exponents.now
        table.old table.new }
{
    let p = usize::from(position.0);
    let j = usize::from(rank.0);
    for q in 0..6 {
        table[q * 63 + j] = powers[usize::from(exponents[q * 64 + p])];
    }
}

// All columns, from rank 0 on. The first `size` ranks are the reliable set, the `rows` after them the places outside: numbers beside the
// order, as `Numbered` has them.
pub fn symbol_table(m: u8, order: [Position; 63], n: usize, size: usize, rows: usize) -> Symbols
    requires { Numbered m n size rows (place_in order) }
    ensures { Cells m size rows (place_in order) result }
{
    let mut table = [0u8; 378];
    let powers = exponents::powers(m);
    let zech = exponents::zech(m);
    let reliable = &order[..size];
    let outside = &order[size..size + rows];
    let logs = Logs {
        n: n as u8,
        zech: &zech,
    };
    let exponents = cell_exponents(logs, outside);
    for (j, &position) in reliable.iter().enumerate() {
        put_column(&powers, &exponents, position, Rank(j as u8), &mut table);
    }
    table
}
