// What stands in a line: numbers, rows of bytes and rows of values.
//
// The numbers and rows of a line are known by their place: they stand after its first `=`, its second, and so on. A number that is not
// there is 0, as the stored outputs have it.
ghost use Rattle.std.specs.Prelude.{◌≡◌, ◌≢◌, ℕ, ◌-◌, ◌≤◌, ◌⊎◌, List, [], ◌∷◌, ◌++◌, All, IfSome, MatchOption, length};
ghost use Rattle.std.specs.Iterator.{IsFinite};

use crate::digits::hex_byte;

// The least number whose tenfold does not fit 64 bits.
const TENTH: u64 = 1844674407370955162;

// What stands before the first such byte of a text, and what stands behind it.
pub fn split_once(text: &[u8], byte: u8) -> Option<(&[u8], &[u8])>
    ensures parts { IfSome result (λ p. text.now ≡ p.0.now ++ byte ∷ p.1.now) }
    ensures first { MatchOption result (All (λ b. b ≢ byte) text.now) (λ p. All (λ b. b ≢ byte) p.0.now) }
{
    let at = text.iter().position(|&b| b == byte)?;
    Some((&text[..at], &text[at + 1..]))
}

// What stands behind the next such byte: nothing where there is none.
pub fn after(text: &[u8], byte: u8) -> &[u8]
    ensures shorter { length result.now ≤ length text.now - 1 }
    ensures rest { (before : List ℕ) × (text.now ≡ before ++ result.now) }
    ensures behind { (All (λ b. b ≢ byte) text.now × (result.now ≡ []))
        ⊎ ((before : List ℕ) × All (λ b. b ≢ byte) before × (text.now ≡ before ++ byte ∷ result.now)) }
{
    split_once(text, byte).map_or(&[], |(_, behind)| behind)
}

// The row of a place, and what stands after it in the line.
pub fn row(line: &[u8], place: usize) -> &[u8]
    ensures shorter { length result.now ≤ length line.now }
    ensures rest { (before : List ℕ) × (line.now ≡ before ++ result.now) }
{
    let mut rest = line;
    for _ in 0..place {
        rest = after(rest, b'=');
    }
    rest
}

// The number that a word begins with. What does not fit 64 bits is left out.
fn number_of(word: &[u8]) -> u64 {
    let digits = word.iter().map_while(|&b| char::from(b).to_digit(10));
    digits.fold(0, |n: u64, d| (n % TENTH * 10).wrapping_add(u64::from(d)))
}

pub fn number(line: &[u8], place: usize) -> u64 {
    number_of(row(line, place))
}

pub fn short(line: &[u8], place: usize) -> u16 {
    (number(line, place) % 65536) as u16
}

// Puts items at the start of a buffer, as far as it has room, and answers how many. That is no slice of the buffer: a call that is told of
// more bytes reads past it.
pub fn fill<T: Drop, I: Iterator<Item = T> + Drop>(space: &mut [T], mut items: I) -> usize
    requires can { I.can_next items }
    requires ends { IsFinite (I.remaining items) }
    ensures { result ≤ length space.new }
{
    for (count, place) in space.iter_mut().enumerate() {
        let Some(item) = items.next() else {
            return count;
        };
        *place = item;
    }
    space.len()
}

// Puts what the words of a row are read as at the start of a buffer, up to a word that is read as nothing, and answers how many there are.
fn fill_words<T: Drop, F: FnMut(&[u8]) -> Option<T> + Drop>(
    line: &[u8],
    place: usize,
    space: &mut [T],
    read: F,
) -> usize
    requires { (state : F) (word : _) → F.pre state word }
    ensures { result ≤ length space.new }
{
    let words = row(line, place).split_inclusive(|&b| b == b' ');
    fill(space, words.map_while(read))
}

// The byte that a word begins with, as two digits.
fn byte_of(word: &[u8]) -> Option<u8> {
    let [high, low, ..] = word else {
        return None;
    };
    hex_byte(*high, *low)
}

// Puts the bytes of a row at the start of a buffer, and answers how many there are.
pub fn bytes_at(line: &[u8], place: usize, space: &mut [u8]) -> usize
    ensures { result ≤ length space.new }
{
    fill_words(line, place, space, byte_of)
}

// The value that a word says, if it begins with no letter. The complement of n-1 is -n, at n = 128 too.
fn value_of(word: &[u8]) -> Option<i8> {
    match word {
        [(b'a'..), ..] => None,
        [b'-', digits @ ..] => Some(!((number_of(digits).wrapping_sub(1) % 128) as i8)),
        _ => Some((number_of(word) % 128) as i8),
    }
}

// Puts the values of a row, which a word ends, at the start of a buffer, and answers how many there are.
pub fn values_at(line: &[u8], place: usize, space: &mut [i8]) -> usize
    ensures { result ≤ length space.new }
{
    fill_words(line, place, space, value_of)
}
