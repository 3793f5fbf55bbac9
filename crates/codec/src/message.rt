// The message of a word, or the first of read's checks of a word that fails, and where (Req 02).
ghost use Rattle.std.specs.Prelude.{◌≡◌, ◌/◌, ◌^◌, ◌≤◌, ◌<◌};
ghost use Rattle.field.specs.Lowest.{Lowest};
ghost use Rattle.codes.specs.Codeword.{bit_of};
ghost use Rattle.codec.specs.Called.{reading_after};
ghost use Rattle.codec.specs.Faulty.{answer_of};

use crate::fault::Fault;
use crate::parity::word_of;
use frame::refusal::Refusal;
use words::Shortened;

// The lowest position from `from` on that holds a 1.
fn lowest_one(word: u64, from: usize) -> u8
    requires { (from ≤ 63) × (0 < word / 2 ^ from) }
    ensures { Lowest from 64 (bit_of word) result }
{
    (from + (word >> from).trailing_zeros() as usize) as u8
}

// The pad bit, then the unsent bits, then the word of its message; and only where that is another, the roots. What is left of the word when
// the codeword with its message is taken off has the word's values at the code's roots, and fewer bits.
pub fn message_of(short: Shortened, word: u64) -> Result<u64, Fault>
    ensures { answer_of result ≡ reading_after 0 short.code.m short.code.t short.s word }
{
    let code = short.code;
    if 0 < word >> code.length() {
        return Err(Fault::Refused(Refusal::PadBit));
    }
    let sent = short.sent();
    if 0 < word >> sent {
        return Err(Fault::Unsent(lowest_one(word, sent)));
    }
    let message = word >> code.parity();
    let coded = word_of(code.m, code.t, message);
    if coded == word {
        return Ok(message);
    }
    let power = roots::lowest_power(code.m as u8, code.t as u8, word ^ coded);
    Err(Fault::Root(power))
}
