// A case and its answer.
ghost use Rattle.std.specs.Prelude.{◌≤◌, length};

use crate::printed::{put, put_shown};
use crate::quoted::{next_text, read};
use cases::text::put_text;
use input_lines::header::{Header, read_header};
use lines::answer::{answer_header, answer_word};

// The most bytes of a case, and of each of its texts.
const LONGEST: usize = 1024;

// What a header says, where words follow.
fn put_header(h: Header) {
    put(b"words follow, m=", h.m);
    put(b" t=", h.t);
    put(b" s=", h.s);
    put(b" order=", h.order);
}

fn answer_first(text: &[u8]) {
    let header = read_header(text);
    let mut out = [0u8; 16];
    let n = answer_header(header, &mut out);
    match header {
        Some(h) if n == 0 => put_header(h),
        _ => put_shown(&out, n),
    }
}

// The program answers no word line under a wrong header: here it stands for four zeros.
fn answer_under(header: &[u8], text: &[u8]) {
    let h = read_header(header).unwrap_or_default();
    let mut out = [0u8; 64];
    let n = answer_word(h, text, &mut out);
    put_shown(&out, n);
}

// What all lines print, and what the end of the input adds. The step may print 64 bytes for each byte of its input.
fn answer_input(text: &[u8])
    requires { length text.now ≤ LONGEST }
{
    let mut line = [0u8; 513];
    let mut out = io::large_buffer();
    let stepped = stream::step(stream::start(), &mut line, text, &mut out);
    put_shown(&out, stepped.wrote);
    let added = stream::end(stepped.state, &line, &mut out);
    put_shown(&out, added);
}

// A case of each kind, with its texts as they are spelled.
#[derive(Clone, Copy)]
enum Case<'l> {
    Header { text: &'l [u8] },
    Word { text: &'l [u8], under: &'l [u8] },
    Input { text: &'l [u8] },
}

// The kind of a case is its first letter. A bad case is none: its letter is another, a text of it is not closed, or it is too long.
fn case_of(line: &[u8]) -> Option<Case<'_>> {
    if LONGEST < line.len() {
        return None;
    }
    let (text, behind) = next_text(line)?;
    match line {
        [b'h', ..] => Some(Case::Header { text }),
        [b'w', ..] => {
            let (under, _) = next_text(behind)?;
            Some(Case::Word { text, under })
        }
        [b'i', ..] => Some(Case::Input { text }),
        _ => None,
    }
}

fn answer(case: Case) {
    let mut space = [0u8; LONGEST];
    match case {
        Case::Header { text } => answer_first(read(text, &mut space)),
        Case::Word { text, under } => {
            let mut space_under = [0u8; LONGEST];
            answer_under(read(under, &mut space_under), read(text, &mut space));
        }
        Case::Input { text } => {
            put_text(b"[");
            answer_input(read(text, &mut space));
            put_text(b"]");
        }
    }
}

// Prints what stands behind a case: nothing, where it is a title.
pub fn run(line: &[u8]) {
    if !matches!(line, [(b'a'..), ..]) {
        return;
    }
    put_text(b": ");
    match case_of(line) {
        Some(case) => answer(case),
        None => put_text(b"bad case"),
    }
}
