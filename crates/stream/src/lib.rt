// The program as a step over a block of its input: no input and no output of its own.
#![tactic(auto)]

ghost use Rattle.std.specs.Prelude.{◌≡◌, ◌*◌, ◌≤◌, length};
ghost use Rattle.lines.specs.Awaited.{is_ended};
ghost use Rattle.lines.specs.Memory.{end_says};
ghost use Rattle.stream.specs.Stepped.{Ready, memory_of, Begins, Prints, Steps};
ghost use Rattle.stream.specs.Inner.Finished.{Finishes};

use crate::text::{find_newline, hold, whole};
use lines::phase;
use lines::phase::{Answered, Phase};

pub mod text; // where a line ends, and the bytes of one that has not ended

// What is remembered between blocks, beside the lent 513 bytes that hold the unfinished line: what is awaited, and how many bytes are held.
// The bytes are no field, and `Ready` no invariant: `ended` asks neither, and that `step` and `end` meet their contracts are theorems.
#[derive(Clone, Copy)]
pub struct State {
    pub phase: Phase,
    pub held: usize,
}

// What is remembered after a block, and how many bytes of the output are written.
#[derive(Clone, Copy)]
pub struct Stepped {
    pub state: State,
    pub wrote: usize,
}

// No answer is longer.
const ANSWER: usize = 64;

// Nothing is read yet.
pub fn start() -> State
    ensures { Begins result }
{
    State {
        phase: Phase::First,
        held: 0,
    }
}

// Whether nothing more will be printed.
pub fn ended(state: State) -> bool
    ensures { result ≡ is_ended state.phase }
{
    matches!(state.phase, Phase::Ended)
}

// A line ends with the piece: its answer.
fn finish(state: State, line: &mut [u8], piece: &[u8], out: &mut [u8]) -> Answered
    requires ready { Ready state line.old }
    requires in_bounds { 64 ≤ length out.old }
    ensures { Finishes (memory_of state line.old) piece.now out.old result out.new }
{
    phase::answer(state.phase, whole(line, state.held, piece), out)
}

// Takes a whole block, and writes the answers to all lines that end in it.
pub fn step(state: State, line: &mut [u8], block: &[u8], out: &mut [u8]) -> Stepped
    requires ready { Ready state line.old }
    requires block_in_bounds { 64 * length block.now ≤ length out.old }
    ensures { Steps (memory_of state line.old) block.now out.old result
        line.new out.new }
{
    let mut current = state;
    let mut at = 0;
    let mut wrote = 0;
    // Not a `for`: where a line ends is what `find_newline` finds from where the last one ended.
    while let Some(end) = find_newline(block, at) {
        let room = wrote + ANSWER;
        let answered = finish(current, line, &block[at..end], &mut out[wrote..room]);
        let phase = answered.phase;
        current = State { phase, held: 0 };
        wrote += answered.wrote;
        at = end + 1;
    }
    let held = hold(line, current.held, &block[at..]);
    Stepped {
        state: State { held, ..current },
        wrote,
    }
}

// What the end of the input adds: a line whose newline is missing, or a missing header. It has a match of its own beside `phase::answer`'s,
// since an empty rest is no line where words are awaited, and is a blank one where the header is.
pub fn end(state: State, line: &[u8], out: &mut [u8]) -> usize
    requires ready { Ready state line.now }
    requires in_bounds { 64 ≤ length out.old }
    ensures { Prints (end_says (memory_of state line.now)) out.old result out.new }
{
    let held = state.held;
    let phase = state.phase;
    match phase {
        Phase::First => {
            let h = input_lines::header::read_header(&line[..held]);
            lines::answer::answer_header(h, out)
        }
        Phase::Words(h) => {
            if held == 0 {
                return 0;
            }
            lines::answer::answer_word(h, &line[..held], out)
        }
        Phase::Ended => 0,
    }
}
