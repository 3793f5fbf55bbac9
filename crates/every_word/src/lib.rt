// For try_random: every word of 15 bits, with the pad bit and without it, read and compared with a reader that tries every position and
// every power.
#![tactic(auto)]

ghost use Rattle.std.specs.Prelude.{◌≡◌, ◌≤◌, ◌↔◌, IsTrue};

use exhaustive::reader::{Fault, Told, read};
use std::fmt;
use tally::count;

// Words that read was given; those on which it differs; then those that are taken, and those refused for the pad bit, for an unsent bit,
// and at the powers 1, 3 and 5.
#[derive(Clone, Copy, Default)]
pub struct Reads {
    pub words: u64,
    pub differ: u64,
    pub taken: u64,
    pub pad: u64,
    pub unsent: u64,
    pub root_1: u64,
    pub root_3: u64,
    pub root_5: u64,
}

// All of read's answer.
pub fn same_reading(reading: codec::Reading, told: Told) -> bool
    ensures { IsTrue result
        ↔ ((reading.refusal ≡ told.refusal) × (reading.message ≡ told.message) × (reading.at ≡ told.at)) }
{
    (
        u64::from(reading.refusal),
        reading.message,
        u64::from(reading.at),
    ) == (told.refusal, told.message, told.at)
}

impl Reads {
    // With one more word.
    fn count_word(&mut self, t: u16, s: u16, w: u16)
        requires { s ≤ 15 }
    {
        let told = read(u64::from(w), t, s);
        let reading = codec::read(4, t, s, &w.to_le_bytes());
        count(&mut self.words, true);
        count(&mut self.differ, !same_reading(reading, told.into()));
        let place = match told {
            Ok(_) => &mut self.taken,
            Err(Fault::Pad) => &mut self.pad,
            Err(Fault::Unsent(_)) => &mut self.unsent,
            Err(Fault::Root(1)) => &mut self.root_1,
            Err(Fault::Root(3)) => &mut self.root_3,
            Err(Fault::Root(_)) => &mut self.root_5,
        };
        count(place, true);
    }

    fn count_every_word(&mut self, t: u16, s: u16)
        requires { s ≤ 15 }
    {
        for w in 0..=u16::MAX {
            self.count_word(t, s, w);
        }
    }
}

// At three shortenings of a code, which has k message bits: none, 3, and all but one of them.
pub fn read_every_word(t: u16, k: u16) -> Reads
    requires { (1 ≤ k) × (k ≤ 15) }
{
    let mut reads = Reads::default();
    for s in [0, 3, k - 1] {
        reads.count_every_word(t, s);
    }
    reads
}

impl fmt::Display for Reads {
    fn fmt<W: fmt::Write>(&self, f: &mut fmt::Formatter<W>) -> fmt::Result {
        write!(
            f,
            "  read: words {}, differ {} (taken {}, pad bit {}, unsent bit {}, root 1 {}, 3 {}, 5 {})",
            self.words,
            self.differ,
            self.taken,
            self.pad,
            self.unsent,
            self.root_1,
            self.root_3,
            self.root_5
        )
    }
}
