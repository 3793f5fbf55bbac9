// The symbols of the unflipped pattern: the sums of the table's cells at the hard decisions that are 1.
ghost use Rattle.std.specs.Prelude.{◌≡◌, ◌≤◌, ◌<◌, length};
ghost use Rattle.prepare.specs.Inner.RowSums.{AddsColumn, RowSums};

use crate::ones::Ones;
use table::Symbols;

// Adds the column of rank j to the sums, in all six rows, used or not.
fn add_column(symbols: &Symbols, j: usize, sums: &mut [u8; 6])
    requires { (j < 63) × (length sums.old ≡ 6) }
    ensures { AddsColumn j symbols.now sums.old sums.new }
{
    for q in 0..6 {
        sums[q] ^= symbols[q * 63 + j];
    }
}

// The sums of all rows, over the set bits below `size`.
pub fn row_sums(symbols: &Symbols, bits: u64, size: usize) -> [u8; 6]
    requires { size ≤ 63 }
    ensures { RowSums symbols.now bits size result }
{
    let mut sums = [0u8; 6];
    for j in Ones(bits % (1u64 << size)) {
        add_column(symbols, j, &mut sums);
    }
    sums
}
