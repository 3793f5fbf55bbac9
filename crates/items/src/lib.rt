// What an item of a line is, as a number: numbers of all lines are read here.
#![tactic(auto)]

pub mod cut; // cut.rt: a line, item by item

ghost use Rattle.std.specs.Prelude.{◌≡◌, ◌-◌, cond, Some, None};
ghost use Rattle.items.specs.Line.{is_digit};
ghost use Rattle.items.specs.Number.{signed_in, number_in};

// A number as it is written: `-0` is one.
#[derive(Clone, Copy, PartialEq, Eq)]
pub struct Number {
    pub minus: bool,
    pub size: u16,
}

// The digit that a byte is.
fn digit(b: u8) -> Option<u16>
    ensures { result ≡ cond (is_digit b) (Some (b - 48)) None }
{
    if b.is_ascii_digit() {
        Some(u16::from(b - b'0'))
    } else {
        None
    }
}

// One to three digits, after a minus or none. By hand, since `parse` takes a plus sign and any number of zeros, and by how many they are,
// since a loop over so few costs more than they do.
fn read_digits(minus: bool, digits: &[u8]) -> Option<Number>
    ensures { result ≡ signed_in minus digits.now }
{
    let size = match digits {
        [a] => digit(*a)?,
        [a, b] => digit(*a)? * 10 + digit(*b)?,
        [a, b, c] => digit(*a)? * 100 + digit(*b)? * 10 + digit(*c)?,
        _ => return None,
    };
    Some(Number { minus, size })
}

// What the bytes between two spaces say: a number with a minus or none, or no number. Always inlined, since a call for each item of a word
// line costs as much again as its digits.
#[inline(always)]
pub fn read_number(item: &[u8]) -> Option<Number>
    ensures { result ≡ number_in item.now }
{
    let (minus, digits) = match item {
        [b'-', digits @ ..] => (true, digits),
        _ => (false, item),
    };
    read_digits(minus, digits)
}
