// Standard input and output. A call that was interrupted is to be made again, and one that was not ready too, a little later. Any other
// failure is said in a line on standard error.
#![tactic(auto)]

ghost use Rattle.std.specs.Prelude.{◌≤◌, length};
ghost use Rattle.stdio.specs.Outcome.{Means, Within};

use std::io::{Error, Read, Write};
use std::time::{Clock, Duration};
use std::{str, thread};

// Standard error, by its number: `Eprint` among the bounds of `read` and `write_all` would ask more of their callers.
pub const STDERR_FILENO: i32 = 2;

// A call was interrupted.
const EINTR: i32 = 4;

// A call was not ready.
const EAGAIN: i32 = 11;

// What came of a call: it moved so many bytes; or it was interrupted or not ready; or it failed, and standard error says how. It is no
// Result, since a call that is to be made again is no error: each of the three has a consequence of its own.
#[derive(Clone, Copy)]
pub enum Outcome {
    Moved(usize),
    Later,
    Failed,
}

// A thousandth of a second passes.
fn wait(rt: &impl Clock) {
    thread::sleep(rt, Duration::from_nanos(1000000));
}

// Writes a line to standard error: what failed, as the caller names it, a colon and the system's text for the error, which is std's text
// without the number after it.
fn fail(name: &[u8], error: Error) {
    let mut text = [0u8; 128];
    let mut room = &mut text[..];
    let _ = write!(room, "{error}");
    let words = str::from_utf8(&text).unwrap_or("").trim_end_matches('\0');
    let said = match words.split_once(" (os error ") {
        Some((before, _)) => before,
        None => words,
    };
    io::write_all(STDERR_FILENO, name);
    io::write_all(STDERR_FILENO, b": ");
    io::write_all(STDERR_FILENO, said.as_bytes());
    io::write_all(STDERR_FILENO, b"\n");
}

// What the system's answer to a call means. A call that was not ready is given time at once, and a failure is said. An error goes by its
// number and not by its kind, since `Means` speaks of the number, and no clause of a read or a write ties its error's kind to that.
fn outcome_of(rt: &impl Clock, answer: Result<usize, Error>, lent: &[u8], name: &[u8]) -> Outcome
    ensures { Means answer lent.now result }
{
    match answer {
        Ok(n) => Outcome::Moved(n.min(lent.len())),
        Err(error) => match error.raw_os_error() {
            Some(EINTR) => Outcome::Later,
            Some(EAGAIN) => {
                wait(rt);
                Outcome::Later
            }
            _ => {
                fail(name, error);
                Outcome::Failed
            }
        },
    }
}

// One read of standard input. Of a block with room, Moved(0) is the end of the input, and nothing else is.
pub fn read(rt: &impl Clock, input: &mut impl Read, block: &mut [u8]) -> Outcome
    ensures { Within result block.new }
{
    let got = input.read(block);
    outcome_of(rt, got, block, b"malligovu: standard input")
}

// One write to standard output. One that takes no byte is given time, as one that was not ready.
fn write(rt: &(impl Clock + Print), text: &[u8]) -> Outcome
    ensures { Within result text.now }
{
    let put = rt.write_some(text);
    if matches!(put, Ok(0)) {
        wait(rt);
    }
    outcome_of(rt, put, text, b"malligovu: standard output")
}

// Writes the text to standard output, in as many calls as it takes, and gives back how many bytes were taken: all, unless a call failed.
// A proved loop has to end: it makes at most so many calls, a number that no run uses up.
pub fn write_all(rt: &(impl Clock + Print), text: &[u8]) -> usize
    ensures { result ≤ length text.now }
{
    let mut done = 0;
    for _ in 0..u64::MAX {
        if done == text.len() {
            break;
        }
        match write(rt, &text[done..]) {
            Outcome::Moved(n) => done += n,
            Outcome::Later => {}
            Outcome::Failed => break,
        }
    }
    done
}
