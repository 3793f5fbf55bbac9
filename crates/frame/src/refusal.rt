// The refusals and their numbers, and the number that each call's checks come to.
ghost use Rattle.std.specs.Prelude.{◌≡◌, ◌<◌};
ghost use Rattle.frame.specs.Refusal.{code_refusal, header_refusal, encode_refusal, read_refusal, decode_refusal};
ghost use Rattle.frame.specs.Numbers.{number_of};

use crate::checks::{decode_checks, encode_checks, header_checks, read_checks, shortened_code};
use words::Shortened;

// What stands for a refusal's number where nothing is refused.
pub const TAKEN: u8 = 0;

// Why a call says no.
#[derive(Clone, Copy, PartialEq, Eq)]
pub enum Refusal {
    // m is not 4 to 6, or t not 1 to 3
    UnknownCode = 1,
    // s is k or more
    TooShort = 2,
    // the order is above 3
    HighOrder = 3,
    // the count of soft values is not n - s
    WrongCount = 4,
    // the lent word buffer has fewer than W bytes
    SmallBuffer = 5,
    // the search's own: no candidate exists
    NoCandidate = 6,
    // the message is 2^(k-s) or more
    LargeMessage = 7,
    // the reader's own: the pad bit is 1
    PadBit = 8,
    // an unsent bit is 1
    UnsentBit = 9,
    // a root of the code is none of the word
    MissingRoot = 10,
}

impl Refusal {
    ghost use Rattle.frame.specs.Numbers.{number};

    // Its number, as the calls answer it; 0 is no refusal's.
    pub fn number(self) -> u8
        ensures number { result ≡ number self }
        ensures above { 0 < result }
    {
        self as u8
    }
}

// The number of what checks answer.
fn number_of(checked: Result<Shortened, Refusal>) -> u8
    ensures { result ≡ number_of checked }
{
    match checked {
        Ok(_) => TAKEN,
        Err(refusal) => refusal.number(),
    }
}

// 1 and 2, with which every call begins.
pub fn code_refusal(m: u16, t: u16, s: u16) -> u8
    ensures { result ≡ code_refusal m t s }
{
    number_of(shortened_code(m, t, s))
}

// 1, 2, 7, 5.
pub fn encode_refusal(m: u16, t: u16, s: u16, message: u64, room: usize) -> u8
    ensures { result ≡ encode_refusal m t s message room }
{
    number_of(encode_checks(m, t, s, message, room))
}

// 1, 2, 5; 8, 9 and 10 are the reader's own.
pub fn read_refusal(m: u16, t: u16, s: u16, room: usize) -> u8
    ensures { result ≡ read_refusal m t s room }
{
    number_of(read_checks(m, t, s, room))
}

// 1, 2, 3: the checks that a header alone decides.
pub fn header_refusal(m: u16, t: u16, s: u16, order: u16) -> u8
    ensures { result ≡ header_refusal m t s order }
{
    number_of(header_checks(m, t, s, order))
}

// 1, 2, 3, 4, 5; 6 is the search's own.
pub fn decode_refusal(m: u16, t: u16, s: u16, order: u16, values: usize, room: usize) -> u8
    ensures { result ≡ decode_refusal m t s order values room }
{
    number_of(decode_checks(m, t, s, order, values, room))
}
