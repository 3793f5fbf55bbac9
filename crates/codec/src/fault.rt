// Why read gives no message, and where.
ghost use Rattle.std.specs.Prelude.{◌≡◌};

use crate::Reading;
use frame::refusal::Refusal;

// A refusal without a place, or one of the two that have one.
#[derive(Clone, Copy, PartialEq, Eq)]
pub enum Fault {
    // of what the call was given, or of the pad bit
    Refused(Refusal),
    // 9, at the lowest unsent position that holds a 1
    Unsent(u8),
    // 10, at the lowest power at which the word is not zero
    Root(u8),
}

impl From<Refusal> for Fault {
    ghost use Rattle.codec.specs.declared.fault.Fault.TheVariants.{Refused};

    ghost from_gives = { λ r f. f ≡ Refused r };

    fn from(refusal: Refusal) -> Fault {
        Fault::Refused(refusal)
    }
}

impl From<Fault> for Reading {
    ghost use Rattle.codec.specs.Faulty.{faulty};

    ghost from_gives = { λ f r. r ≡ faulty f };

    fn from(fault: Fault) -> Reading {
        let (refusal, at) = match fault {
            Fault::Refused(refusal) => (refusal, 0),
            Fault::Unsent(at) => (Refusal::UnsentBit, at),
            Fault::Root(at) => (Refusal::MissingRoot, at),
        };
        Reading {
            refusal: refusal.number(),
            message: 0,
            at,
        }
    }
}
