// The non-binary parts of the columns of the symbol table: what tells a flip that leads to no candidate. Rows are four bits apart, and at
// m = 6 a symbol's part has five: neighbouring rows overlap in a bit, so that a part of 0 may yet be that of a pattern that is dropped.
ghost use Rattle.std.specs.Prelude.{◌≡◌, ◌*◌, ◌/◌, ◌^◌, ◌≤◌, ◌<◌, length, get_or};
ghost use Rattle.search.specs.Part.{part_over};
ghost use Rattle.parts.specs.Parts.{PartsOf};
ghost use Rattle.parts.specs.Inner.RowAdded.{RowAdded};

use table::Symbols;

// The part of each rank's column.
pub type Parts = [u16; 64];

// All bits of a symbol but the lowest, moved to the place of its row.
fn moved(symbol: u8, q: usize) -> u16
    requires { q < 3 }
    ensures { result ≡ symbol / 2 * 2 ^ (4 * q) }
{
    u16::from(symbol / 2) << (4 * q)
}

// Adds the parts of row q. It goes over one cell more than there are ranks, so that the loop has 64 turns.
fn add_row(parts: &mut Parts, symbols: &Symbols, q: usize)
    requires { (q < 3) × (length parts.old ≡ 64) }
    ensures { (length parts.new ≡ 64) × RowAdded symbols.now q parts.old parts.new }
{
    for j in 0..64 {
        parts[j] ^= moved(symbols[q * 63 + j], q);
    }
}

// The parts of the columns, in the first `told` rows.
pub fn parts_of(symbols: &Symbols, told: usize) -> Parts
    requires { told ≤ 3 }
    ensures { PartsOf symbols.now told result }
{
    let mut parts = [0u16; 64];
    for q in 0..told {
        add_row(&mut parts, symbols, q);
    }
    parts
}

// The part of the unflipped pattern.
pub fn base_part(base: [u8; 6], told: usize) -> u16
    requires { told ≤ 3 }
    ensures { result ≡ part_over (λ q. get_or base q 0) told }
{
    let mut part: u16 = 0;
    for q in 0..told {
        part ^= moved(base[q], q);
    }
    part
}
