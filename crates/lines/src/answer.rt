// What each line prints: the answer to the first line, and the answer to a word line.
ghost use Rattle.std.specs.Prelude.{◌≤◌, length};
ghost use Rattle.lines.specs.Answer.{header_says, word_answer};
ghost use Rattle.output_lines.specs.Put.{Put};

use frame::header_checks;
use input_lines::header::Header;
use input_lines::word_line::read_values;
use output_lines::{put_header, put_line, put_ok, put_refused};
use words::Code;

// The answer to a first line that is this header, or none: nothing where words follow.
pub fn answer_header(header: Option<Header>, out: &mut [u8]) -> usize
    requires { 16 ≤ length out.old }
    ensures { Put (header_says header) out.old result out.new }
{
    let Some(h) = header else {
        return put_header(out);
    };
    match header_checks(h.m, h.t, h.s, h.order) {
        Ok(_) => 0,
        Err(refusal) => put_refused(refusal.number(), out),
    }
}

// The answer to a word line under a header.
pub fn answer_word(h: Header, text: &[u8], out: &mut [u8]) -> usize
    requires { 64 ≤ length out.old }
    ensures { Put (word_answer h text.now) out.old result out.new }
{
    let mut values = [0i8; 256];
    let Some(count) = read_values(text, &mut values) else {
        return put_line(out);
    };
    let mut word = [0u8; 8];
    let decoding = decode::decode(h.m, h.t, h.s, h.order, &values[..count], &mut word);
    match Code::new(h.m, h.t) {
        Some(code) if decoding.refusal == 0 => put_ok(
            &word[..code.bytes()],
            decoding.distance,
            decoding.flips,
            decoding.candidates,
            out,
        ),
        // what names no code is refused too
        _ => put_refused(decoding.refusal, out),
    }
}
