// Runs the examples and the refusals of document 01 ('Settled examples', 'What each call says no to') and of Req 02, a line of the file
// `stdin` a case.
//
// A line is printed with what its call answers in the place of its question marks: numbers, and then the bytes of the buffer. The file
// `stdout` has the paper's answers. A lent buffer is filled with ff before the call and all of it is printed after the call, so a line
// shows what was written and what was left. A line that begins with # is not printed. Any other that is no call, or too long for one, is
// printed as it is.
#![tactic(auto)]

use crate::calls::{decode_line, encode_line, read_line};
use cases::text::{put_text, read_stored};

mod calls; // the three calls

// The most bytes of a call.
const LONGEST: usize = 4096;

// The first letter tells the calls apart. A call that is an example of the paper has a P and its number before it.
fn answer(line: &[u8]) {
    if LONGEST < line.len() {
        put_text(line);
        return;
    }
    match line {
        [b'#', ..] => {}
        [b'e', ..] => encode_line(line),
        [b'r', ..] => read_line(line),
        [b'd' | b'P', ..] => decode_line(line),
        _ => put_text(line),
    }
}

fn answer_all(cases: &[u8]) {
    for line in cases.split_inclusive(|&b| b == b'\n') {
        answer(line);
    }
}

// The space is twice the length of the cases.
fn main() {
    let mut space = [0; 131072];
    answer_all(read_stored(&mut space));
}
