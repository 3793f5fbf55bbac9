// What read has to answer on a word of 15 bits with the pad bit above them: position by position, and power by power.
ghost use Rattle.std.specs.Prelude.{◌≡◌, ℕ, ◌≤◌, ◌<◌, Err, IfOk};

use crate::roots::{lowest_power, powers};

// Why read refuses a word.
#[derive(Clone, Copy, PartialEq, Eq)]
pub enum Fault {
    // the pad bit is 1
    Pad,
    // the lowest unsent position that holds a 1
    Unsent(usize),
    // the lowest power at which the word is not zero
    Root(usize),
}

// Read's answer in numbers, any of them: its refusal, or 0 where a word is taken; the word's message, and the place at fault, or 0.
#[derive(Clone, Copy)]
pub struct Told {
    pub refusal: u64,
    pub message: u64,
    pub at: u64,
}

// The numbers are read's answer to C hosts, written here once more.
impl From<Result<u64, Fault>> for Told {
    fn from(told: Result<u64, Fault>) -> Told
        ensures taken { IfOk told (λ m. result ≡ record { refusal = 0; message = m; at = 0 }) }
        ensures pad { told ≡ Err Fault.Pad → result ≡ record { refusal = 8; message = 0; at = 0 } }
        ensures unsent { (p : ℕ) → told ≡ Err (Fault.Unsent p) → result ≡ record { refusal = 9; message = 0; at = p } }
        ensures root { (e : ℕ) → told ≡ Err (Fault.Root e) → result ≡ record { refusal = 10; message = 0; at = e } }
    {
        let (refusal, message, at) = match told {
            Ok(message) => (0, message, 0),
            Err(Fault::Pad) => (8, 0, 0),
            Err(Fault::Unsent(position)) => (9, 0, position as u64),
            Err(Fault::Root(power)) => (10, 0, power as u64),
        };
        Told {
            refusal,
            message,
            at,
        }
    }
}

// The number of parity bits.
fn parity_of(t: u16) -> u16
    ensures { result < 64 }
{
    match t {
        1 => 4,
        2 => 8,
        _ => 10,
    }
}

// The lowest of the s highest positions that holds a 1.
fn lowest_unsent(w: u64, s: u16) -> Option<usize>
    requires { s ≤ 15 }
{
    (15 - usize::from(s)..15).find(|p| (w >> *p) % 2 == 1)
}

// What read answers: the message of a word, or the first check that fails.
pub fn read(w: u64, t: u16, s: u16) -> Result<u64, Fault>
    requires { s ≤ 15 }
{
    if (w >> 15) % 2 == 1 {
        return Err(Fault::Pad);
    }
    if let Some(position) = lowest_unsent(w, s) {
        return Err(Fault::Unsent(position));
    }
    if let Some(power) = lowest_power(&powers(), w, t) {
        return Err(Fault::Root(power));
    }
    Ok(w >> parity_of(t))
}
