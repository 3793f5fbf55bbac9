// The first line of the input, as the header that it is.
ghost use Rattle.std.specs.Prelude.{◌≡◌, cond, Some, None};
ghost use Rattle.items.specs.Line.{is_number, number_of};
ghost use Rattle.input_lines.specs.Header.{header_of};

use crate::LONGEST;
use items::read_number;

#[derive(Clone, Copy, PartialEq, Eq, Default)]
pub struct Header {
    pub m: u16,
    pub t: u16,
    pub s: u16,
    pub order: u16,
}

// A number with no minus.
fn read_plain(item: &[u8]) -> Option<u16>
    ensures { result ≡ cond (is_number item.now) (Some (number_of item.now)) None }
{
    let number = read_number(item)?;
    if number.minus {
        None
    } else {
        Some(number.size)
    }
}

pub fn read_header(text: &[u8]) -> Option<Header>
    ensures { result ≡ header_of text.now }
{
    if LONGEST < text.len() {
        return None;
    }
    let mut items = text.split(|b| *b == b' ');
    let m = read_plain(items.next()?)?;
    let t = read_plain(items.next()?)?;
    let s = read_plain(items.next()?)?;
    // an order that is left out is t
    let order = match items.next() {
        Some(item) => read_plain(item)?,
        None => t,
    };
    if items.next().is_some() {
        return None;
    }
    Some(Header { m, t, s, order })
}
