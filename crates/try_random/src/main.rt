// Runs decode on words of 15 bits, and read on its answers and on every word, and compares them with an exhaustive search and a reader that
// share no code with them.
//
// Random words of every code, shortening and order, and words sent with the wrong bits' sum at the edge of demand 3: one below the bound,
// and at it. The file `stdout` has the counts.
#![tactic(auto)]

ghost use Rattle.std.specs.Prelude.{◌≤◌};

use crate::compare::compare;
use crate::output::Output;
use drawn::drafts::{SentWord, chosen, sent_word};
use drawn::kinds::{Kind, random_word};
use drawn::random::{drawn, next, other};
use every_word::read_every_word;
use exhaustive::roots::list_codewords;
use exhaustive::sent::margin_of;
use exhaustive::setting::Setting;
use std::fmt::Write;
use tally::Tally;

mod compare; // a call compared with the exhaustive search
mod output; // what is printed

// How a word is made.
#[derive(Clone, Copy)]
enum Making {
    Random(Kind),
    // sent, with the wrong sum so much below the bound
    Sent { below: u64 },
}

// Of ten words six are random, one of each kind, and four are sent, two with the wrong sum one below the bound and two at it.
const MAKINGS: [Making; 10] = [
    Making::Random(Kind::Any),
    Making::Random(Kind::Small),
    Making::Random(Kind::Extreme),
    Making::Random(Kind::Noisy),
    Making::Random(Kind::NoisyTied),
    Making::Random(Kind::NoisySmall),
    Making::Sent { below: 0 },
    Making::Sent { below: 1 },
    Making::Sent { below: 0 },
    Making::Sent { below: 1 },
];

// How many words are tried for each code, shortening and order.
const WORDS: usize = 400;

// What was counted so far, and the state of the numbers.
#[derive(Clone, Copy)]
struct Run {
    tally: Tally,
    seed: u64,
}

// A word, and the codeword that it was made of.
fn made_word(setting: Setting, making: Making, seed: u64) -> SentWord {
    match making {
        Making::Random(kind) => {
            let codeword = chosen(setting.codewords, 0, drawn(seed));
            SentWord {
                word: random_word(
                    kind as u64,
                    codeword,
                    15 - usize::from(setting.s),
                    next(seed),
                ),
                codeword,
            }
        }
        Making::Sent { below } => sent_word(setting, below, seed),
    }
}

impl Run {
    fn try_word(&mut self, setting: Setting, making: Making) {
        self.seed = other(self.seed);
        let sent = made_word(setting, making, self.seed);
        let outcome = compare(setting, &sent.word, (self.seed % 256) as u8);
        self.tally.count_outcome(outcome);
        if let Some(margin) = margin_of(setting, &sent.word, sent.codeword) {
            self.tally
                .count_sent(margin, 0 < setting.s, outcome.word == Some(sent.codeword));
        }
    }

    fn try_words(&mut self, setting: Setting) {
        for making in MAKINGS.iter().cycle().take(WORDS) {
            self.try_word(setting, *making);
        }
    }

    fn try_orders(&mut self, codewords: &[u64], t: u16, s: u16)
        requires { s ≤ 15 }
    {
        for order in 0..=3 {
            self.try_words(Setting {
                codewords,
                t,
                s,
                order,
            });
        }
    }
}

// Every shortening of a code, which has k message bits.
fn try_code(codewords: &[u64], t: u16, k: u16) -> Tally
    requires { k ≤ 15 }
{
    let mut run = Run {
        tally: Tally::default(),
        seed: 88172645463325252,
    };
    for s in 0..k {
        run.try_orders(codewords, t, s);
    }
    run.tally
}

fn run_code(t: u16, k: u16)
    requires { (1 ≤ k) × (k ≤ 15) }
{
    let mut space = [0; 2048];
    let codewords = list_codewords(t, &mut space);
    let _ = writeln!(Output, "t={t}: codewords {}", codewords.len());
    let _ = writeln!(Output, "{}", try_code(codewords, t, k));
    let _ = writeln!(Output, "{}", read_every_word(t, k));
}

fn main() {
    run_code(1, 11);
    run_code(2, 7);
    run_code(3, 5);
}
