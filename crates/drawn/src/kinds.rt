// Random received words of several kinds.
ghost use Rattle.std.specs.Prelude.{◌≡◌, ◌≤◌};

use crate::random::drawn_word;
use exhaustive::received::value_with;

// What the values of a word are like.
#[derive(Clone, Copy, PartialEq, Eq)]
pub enum Kind {
    // any value
    Any,
    // sizes of 0 to 3
    Small,
    // -128, -127, 0 or 127
    Extreme,
    // a noisy codeword with any sizes
    Noisy,
    // a noisy codeword with one size
    NoisyTied,
    // a noisy codeword with sizes of 0 to 3
    NoisySmall,
}

// The kinds by their numbers, as `as` has them, and any number is one of a kind: the last has all above its own.
impl From<u64> for Kind {
    fn from(number: u64) -> Kind
        ensures any { number ≡ 0 → result ≡ Kind.Any }
        ensures small { number ≡ 1 → result ≡ Kind.Small }
        ensures extreme { number ≡ 2 → result ≡ Kind.Extreme }
        ensures noisy { number ≡ 3 → result ≡ Kind.Noisy }
        ensures tied { number ≡ 4 → result ≡ Kind.NoisyTied }
        ensures last { 5 ≤ number → result ≡ Kind.NoisySmall }
    {
        match number {
            0 => Kind::Any,
            1 => Kind::Small,
            2 => Kind::Extreme,
            3 => Kind::Noisy,
            4 => Kind::NoisyTied,
            _ => Kind::NoisySmall,
        }
    }
}

// A bit that is wrong once in eight times.
fn noisy(bit: u64, x: u64) -> u64 {
    if x % 8 == 0 { (bit ^ 1) % 2 } else { bit % 2 }
}

// A value for a position: -128, -127, 0 or 127.
fn extreme(x: u64) -> i8 {
    match x % 4 {
        0 => -128,
        1 => -127,
        2 => 0,
        _ => 127,
    }
}

fn random_value(kind: Kind, bit: u64, x: u64) -> i8 {
    match kind {
        Kind::Any => ((x % 256) as u8).cast_signed(),
        Kind::Small => value_with(x % 2, x / 2 % 4),
        Kind::Extreme => extreme(x),
        Kind::Noisy => value_with(noisy(bit, x), x / 8 % 129),
        Kind::NoisyTied => value_with(noisy(bit, x), 10),
        Kind::NoisySmall => value_with(noisy(bit, x), x / 8 % 4),
    }
}

// A word of the kind of a number, near a codeword in those kinds that have one; positions from `sent` on are unsent and count as 127.
pub fn random_word(kind: u64, codeword: u64, sent: usize, seed: u64) -> [i8; 15] {
    let kind = Kind::from(kind);
    drawn_word(
        |p, x| random_value(kind, (codeword >> p) % 2, x),
        sent,
        seed,
    )
}
