// The prepared word of the values received.
ghost use Rattle.std.specs.Prelude.{◌≡◌, ◌-◌, ◌*◌, ◌≤◌, length};
ghost use Rattle.field.specs.Field.{length_of};
ghost use Rattle.codes.specs.Code.{Known};
ghost use Rattle.search.specs.Plan.{Fits, Prepares};
ghost use Rattle.prepare.specs.PlanOf.{plan_of};

use crate::by_rank::{self, ByRank};
use crate::{Prepared, unflipped};
use received::Received;
use words::Code;

// The size of the reliable set: the first n-2t ranks.
fn reliable_size(code: Code) -> usize
    ensures { result ≡ length_of code.m - 2 * code.t }
{
    code.length() - 2 * usize::from(code.t)
}

// The prepared word of the values received. m and t are plain numbers to a caller, and the code that they name in here.
pub fn prepare(m: u8, t: u8, soft: &[i8]) -> Prepared
    requires { Known m t × (length soft.now ≤ length_of m) }
    ensures { Prepares m 1 (2 * t) soft.now (plan_of result) × Fits (plan_of result) }
{
    let code = Code {
        m: u16::from(m),
        t: u16::from(t),
    };
    let n = code.length();
    let size = reliable_size(code);
    let rows = n - size;
    let Received { hards, reliability } = received::receive(soft);
    let order = ranks::order::order_of(reliability, n);
    let ByRank { weight, bits } = by_rank::gather(&order, &reliability, hards, n);
    let symbols = table::symbol_table(m, order, n, size, rows);
    let base = unflipped::row_sums(&symbols, bits, size);
    Prepared {
        size: size as u8,
        rows: rows as u8,
        hards: hards.to_le_bytes(),
        sides: (bits >> size) as u8,
        base,
        order,
        weight,
        symbols,
    }
}
