// The decode call: for any input whatever, the paper's one answer.
#![tactic(auto)]

ghost use Rattle.std.specs.Prelude.{◌≡◌};
ghost use Rattle.frame.specs.Numbers.{number};
ghost use Rattle.decode.specs.Decode.{DecodeAnswers};
ghost use Rattle.decode.specs.Call.{refusing};
ghost use Rattle.decode.specs.Outcome.{answer_of};

use frame::refusal::Refusal;

// What decode answers: a refusal's number and nothing else, or 0 and what is known of the word in the buffer. The number stands beside the
// fields that count only where it is 0, since the C interface tells them so; `decoded` gives one without a refusal, or the refusal.
#[derive(Clone, Copy)]
pub struct Decoding {
    pub refusal: u8,
    pub distance: u16,
    pub flips: u8,
    pub candidates: u32,
}

impl From<Refusal> for Decoding {
    ghost from_gives = { λ r d. d ≡ refusing (number r) };

    fn from(refusal: Refusal) -> Decoding {
        Decoding {
            refusal: refusal.number(),
            distance: 0,
            flips: 0,
            candidates: 0,
        }
    }
}

// Writes the nearest candidate into the first W bytes of the buffer, and tells of it; or says why not.
fn decoded(
    m: u16,
    t: u16,
    s: u16,
    order: u16,
    soft: &[i8],
    buf: &mut [u8],
) -> Result<Decoding, Refusal>
    ensures { DecodeAnswers m t s order soft.now buf.old (answer_of result) buf.new }
{
    let shortened = frame::decode_checks(m, t, s, order, soft.len(), buf.len())?;
    let prepared = prepare::prepare(shortened.code.m as u8, shortened.code.t as u8, soft);
    let best = osd::patterns::search(prepared, order as u8);
    let Some(nearest) = best.nearest else {
        return Err(Refusal::NoCandidate);
    };
    let width = shortened.code.bytes();
    words::put_word(nearest.word, width, buf);
    Ok(Decoding {
        refusal: 0,
        distance: nearest.distance,
        flips: nearest.flips,
        candidates: best.count,
    })
}

// The same as one answer, whose fields are 0 on a refusal: the theorem decode_is_ours and the C interface hold it.
pub fn decode(m: u16, t: u16, s: u16, order: u16, soft: &[i8], buf: &mut [u8]) -> Decoding
    ensures { DecodeAnswers m t s order soft.now buf.old result buf.new }
{
    match decoded(m, t, s, order, soft, buf) {
        Ok(decoding) => decoding,
        Err(refusal) => Decoding::from(refusal),
    }
}
