// Texts in brackets, and the bytes that they spell.
ghost use Rattle.std.specs.Prelude.{◌+◌, ◌≤◌, IfSome, length};
ghost use Rattle.std.specs.Iterator.{at_most};

use cases::digits::hex_byte;
use cases::scan::{fill, split_once};

// What the next brackets of a line enclose, and what stands behind them.
pub fn next_text(line: &[u8]) -> Option<(&[u8], &[u8])>
    ensures { IfSome result (λ p. length p.0.now + length p.1.now + 2 ≤ length line.now) }
{
    let (_, opened) = split_once(line, b'[')?;
    split_once(opened, b']')
}

// The bytes that a text spells: a backslash and two digits spell one, and any other byte is itself.
#[derive(Clone, Copy)]
struct Spelled<'t>(&'t [u8]);

impl Iterator for Spelled<'_> {
    type Item = u8;

    ghost remaining = { λ s. at_most (length s.0.now) };

    fn next(&mut self) -> Option<u8> {
        if let [b'\\', high, low, rest @ ..] = self.0 {
            if let Some(byte) = hex_byte(*high, *low) {
                self.0 = rest;
                return Some(byte);
            }
        }
        let (byte, rest) = self.0.split_first()?;
        self.0 = rest;
        Some(*byte)
    }
}

// The bytes that a text spells, in the lent space.
pub fn read<'s>(text: &[u8], space: &'s mut [u8]) -> &'s [u8]
    ensures { length result.now ≤ length space.old }
{
    let count = fill(space, Spelled(text));
    &space[..count]
}
