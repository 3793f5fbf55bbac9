// Runs lines and whole inputs, good and bad, through the program's text forms and its step (document 01, 'The program').
//
// The cases stand in the file `stdin`, a line each. A line is printed as it stands, and its answer after it:
//
//     header [TEXT]               a first line
//     word [TEXT] under [TEXT]    a word line under a first line
//     input [TEXT]                a whole input
//     NAME|CASE                   a case that is printed by a name
//
// A line that starts with no small letter is a title, and has no answer. Any other is a bad case, and so is one of more than 1,024 bytes.
// In a TEXT a backslash and two hexadecimal digits are a byte: so stand bytes that are no printable character, a bar and a closing bracket.
// The file `stdout` has what the paper and the requests say, written by other means.
#![tactic(auto)]

mod printed; // what is printed
mod quoted; // texts in brackets, and the bytes that they spell
mod case; // a case and its answer

use cases::scan::split_once;
use cases::text::{put_text, read_stored};

// The case of a line stands behind its name, or is its own name.
fn run_line(line: &[u8]) {
    let (name, case) = split_once(line, b'|').unwrap_or((line, line));
    put_text(name);
    case::run(case);
}

fn each_line(stored: &[u8]) {
    for line in stored.split_inclusive(|&b| b == b'\n') {
        run_line(line.strip_suffix(b"\n").unwrap_or(line));
        put_text(b"\n");
    }
}

// All lines together have at most 65,536 bytes: what is more is not run.
fn main() {
    let mut space = io::large_buffer();
    each_line(read_stored(&mut space));
}
