// The lines that are printed, put into a lent slice. Each function gives the number of its bytes. That the slice is long enough stands in
// clauses: an array as its type would ask more of callers.
#![tactic(auto)]

ghost use Rattle.std.specs.Prelude.{◌≡◌, ◌+◌, ◌*◌, ◌≤◌, ◌<◌, length};
ghost use Rattle.io.specs.Digits.{hex_digit_ascii};
ghost use Rattle.output_lines.specs.Output.{decimal, hex_of, figure, header_line, line_line, refused_line, ok_line};
ghost use Rattle.output_lines.specs.Put.{Put};
ghost use Rattle.output_lines.specs.Inner.PutAt.{Puts};

// A hexadecimal digit. By hand: `char::from_digit` gives an Option of a char, which a contract of bytes has to take apart again.
fn glyph(d: u8) -> u8
    requires { d < 16 }
    ensures { result ≡ hex_digit_ascii d }
{
    if d < 10 { b'0' + d } else { b'a' + (d - 10) }
}

// A line as it is written: its bytes stand before `at`.
#[derive(Drop)]
struct Line<'a> {
    out: &'a mut [u8],
    at: usize,
}

impl Line<'_> {
    // A piece as it is.
    fn put(&mut self, piece: &[u8])
        requires { self.old.at + length piece.now ≤ length self.old.out.now }
        ensures { Puts piece.now self.old self.new }
    {
        let end = self.at + piece.len();
        self.out[self.at..end].copy_from_slice(piece);
        self.at = end;
    }

    // Two digits for each byte.
    fn put_hex(&mut self, bytes: &[u8])
        requires { self.old.at + 2 * length bytes.now ≤ length self.old.out.now }
        ensures { Puts (hex_of bytes.now) self.old self.new }
    {
        for b in bytes {
            self.put(&[glyph(b / 16), glyph(b % 16)]);
        }
    }

    // A space and a number.
    fn put_figure(&mut self, n: u64)
        requires { self.old.at + length (figure n) ≤ length self.old.out.now }
        ensures { Puts (figure n) self.old self.new }
    {
        let mut digits = [0u8; 20];
        let k = io::decimal(n, &mut digits);
        self.put(b" ");
        self.put(&digits[..k]);
    }
}

// This line and the next have a function each, since each promises its own text; one that takes the text would promise no line.
pub fn put_header(out: &mut [u8]) -> usize
    requires { 16 ≤ length out.old }
    ensures { Put header_line out.old result out.new }
{
    let mut line = Line { out, at: 0 };
    line.put(b"header\n");
    line.at
}

pub fn put_line(out: &mut [u8]) -> usize
    requires { 16 ≤ length out.old }
    ensures { Put line_line out.old result out.new }
{
    let mut line = Line { out, at: 0 };
    line.put(b"line\n");
    line.at
}

// The refusal is told by its number, as the calls answer it and `refused_line` says it.
pub fn put_refused(number: u8, out: &mut [u8]) -> usize
    requires { 16 ≤ length out.old }
    ensures { Put (refused_line number) out.old result out.new }
{
    let mut line = Line { out, at: 0 };
    line.put(b"refused");
    line.put_figure(u64::from(number));
    line.put(b"\n");
    line.at
}

// Numbers of 16, 8 and 32 bits have at most 5, 3 and 10 digits: with a word of 8 bytes that makes 41 bytes at most.
pub fn put_ok(word: &[u8], distance: u16, flips: u8, candidates: u32, out: &mut [u8]) -> usize
    requires { (length word.now ≤ 8) × (64 ≤ length out.old) }
    ensures { Put (ok_line word.now distance flips candidates) out.old result out.new }
{
    let mut line = Line { out, at: 0 };
    line.put(b"ok ");
    line.put_hex(word);
    line.put_figure(u64::from(distance));
    line.put_figure(u64::from(flips));
    line.put_figure(u64::from(candidates));
    line.put(b"\n");
    line.at
}
