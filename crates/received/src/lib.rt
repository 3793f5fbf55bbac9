// Hard decisions and reliabilities: of a value, and of all the values that were received. Their number is bounded in clauses: a slice of at
// most 63 as a type would be taken apart in each function.
#![tactic(auto)]

ghost use Rattle.std.specs.Prelude.{◌≡◌, ◌≤◌, length};
ghost use Rattle.codes.specs.Codeword.{word_of};
ghost use Rattle.soft.specs.Value.{hard_of, hard};
ghost use Rattle.received.specs.Receives.{Receives};
ghost use Rattle.received.specs.Inner.Reliabilities.{Reliabilities};

// What was received, by position.
#[derive(Clone, Copy)]
pub struct Received {
    // the hard decisions, bit p for position p
    pub hards: u64,
    pub reliability: [u8; 63],
}

// A negative value is 1, zero or above is 0.
pub fn hard_decision(v: i8) -> u8
    ensures { result ≡ hard_of v }
{
    u8::from(v < 0)
}

// The hard decisions as a word, from the last down.
fn hards_of(soft: &[i8]) -> u64
    requires { length soft.now ≤ 63 }
    ensures { result ≡ word_of (length soft.now) (hard soft.now) }
{
    let mut hards: u64 = 0;
    for v in soft.iter().rev() {
        hards = hards * 2 + u64::from(hard_decision(*v));
    }
    hards
}

// The reliability of each position: the size of its value, 128 for -128; one past the values is unsent. A loop of its own, which is
// compiled to sixteen values a turn.
fn reliabilities_of(soft: &[i8]) -> [u8; 63]
    requires { length soft.now ≤ 63 }
    ensures { Reliabilities soft.now result }
{
    let mut reliability = [127u8; 63];
    for (p, v) in soft.iter().enumerate() {
        reliability[p] = v.unsigned_abs();
    }
    reliability
}

// The values received, position 0 first; a position past them is unsent.
pub fn receive(soft: &[i8]) -> Received
    requires { length soft.now ≤ 63 }
    ensures { Receives soft.now result }
{
    let hards = hards_of(soft);
    let reliability = reliabilities_of(soft);
    Received { hards, reliability }
}
