// For try_random: what was seen of a call, and what is counted over all words of a code, and printed.
#![tactic(auto)]

use exhaustive::sent::Margin;
use std::fmt;

// What was seen of a call.
#[derive(Clone, Copy)]
pub struct Outcome {
    // all of the answer and of the buffer is as it has to be
    pub same: bool,
    // several candidates are nearest
    pub tied: bool,
    // the word in the buffer, where the call was not refused
    pub word: Option<u64>,
    // it has a one in an unsent place
    pub unsent: bool,
    // read brings back the message of a word that is zero in the unsent places, and refuses any other at its lowest one
    pub read: bool,
}

// Words that were sent with the wrong sum on one side of the bound: all of them; those that are shortened; those for which another word
// came back.
#[derive(Clone, Copy, Default)]
pub struct Sent {
    pub words: u64,
    pub short: u64,
    pub other: u64,
}

// Words that decode was given; those on which it differs; those that it refuses; those with several nearest candidates; those whose answer
// has a one in an unsent place; and those on whose answer read differs. And the words that were sent.
#[derive(Clone, Copy, Default)]
pub struct Tally {
    pub words: u64,
    pub differ: u64,
    pub refused: u64,
    pub tied: u64,
    pub unsent: u64,
    pub misread: u64,
    pub one_below: Sent,
    pub at_bound: Sent,
}

// One more, where a test passes.
pub fn count(number: &mut u64, met: bool) {
    *number = number.saturating_add(u64::from(met));
}

impl Sent {
    fn count(&mut self, short: bool, returned: bool) {
        count(&mut self.words, true);
        count(&mut self.short, short);
        count(&mut self.other, !returned);
    }
}

impl Tally {
    // With one more word that decode was given.
    pub fn count_outcome(&mut self, outcome: Outcome) {
        count(&mut self.words, true);
        count(&mut self.differ, !outcome.same);
        count(&mut self.refused, outcome.word.is_none());
        count(&mut self.tied, outcome.tied);
        count(&mut self.unsent, outcome.unsent);
        count(&mut self.misread, !outcome.read);
    }

    // With one more word that was sent.
    pub fn count_sent(&mut self, margin: Margin, short: bool, returned: bool) {
        match margin {
            Margin::OneBelow => self.one_below.count(short, returned),
            Margin::AtBound => self.at_bound.count(short, returned),
        }
    }
}

impl fmt::Display for Sent {
    fn fmt<W: fmt::Write>(&self, f: &mut fmt::Formatter<W>) -> fmt::Result {
        write!(
            f,
            "words {} (shortened {}), another came back {}",
            self.words, self.short, self.other
        )
    }
}

impl fmt::Display for Tally {
    fn fmt<W: fmt::Write>(&self, f: &mut fmt::Formatter<W>) -> fmt::Result {
        write!(
            f,
            "  decode: words {}, differ {} (refused {}, tied {}, a one in an unsent place {}); read of the answers: differ {}",
            self.words, self.differ, self.refused, self.tied, self.unsent, self.misread
        )?;
        write!(
            f,
            "\n  sent, the wrong sum one below the bound: {}",
            self.one_below
        )?;
        write!(f, "\n  sent, the wrong sum at the bound: {}", self.at_bound)
    }
}
