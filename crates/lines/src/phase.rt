// What a finished line prints, and what is awaited after it.
ghost use Rattle.std.specs.Prelude.{◌≤◌, length};
ghost use Rattle.lines.specs.Finished.{AnswersLine};

use crate::answer::{answer_header, answer_word};
use input_lines::header::{Header, read_header};

// The header is awaited; or words, under a header; or nothing more is answered.
#[derive(Clone, Copy)]
pub enum Phase {
    First,
    Words(Header),
    Ended,
}

// What is awaited after a line, and how many bytes its answer has.
#[derive(Clone, Copy)]
pub struct Answered {
    pub phase: Phase,
    pub wrote: usize,
}

// The first line is the header: words follow, or the program ends. Nothing is printed exactly where words follow (`header_says`).
fn answer_first(text: &[u8], out: &mut [u8]) -> Answered
    requires { 64 ≤ length out.old }
    ensures { AnswersLine Phase.First text.now out.old result out.new }
{
    let header = read_header(text);
    let wrote = answer_header(header, out);
    let phase = match header {
        Some(h) => if wrote == 0 {
            Phase::Words(h)
        } else {
            Phase::Ended
        },
        None => Phase::Ended,
    };
    Answered { phase, wrote }
}

// Writes the answer to a line at the start of the output.
pub fn answer(phase: Phase, text: &[u8], out: &mut [u8]) -> Answered
    requires { 64 ≤ length out.old }
    ensures { AnswersLine phase text.now out.old result out.new }
{
    match phase {
        Phase::First => answer_first(text, out),
        Phase::Words(h) => Answered {
            phase: Phase::Words(h),
            wrote: answer_word(h, text, out),
        },
        Phase::Ended => Answered {
            phase: Phase::Ended,
            wrote: 0,
        },
    }
}
