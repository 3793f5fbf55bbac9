// A word line, as the soft values that it is.
ghost use Rattle.std.specs.Prelude.{◌≡◌, ◌≤◌, cond, Some, None, IfSome, length, option_map, take};
ghost use Rattle.input_lines.specs.WordLine.{is_value, value_of, values_of};

use crate::LONGEST;
use items::cut::Items;
use items::read_number;

// A number from -128 to 127.
fn read_value(item: &[u8]) -> Option<i8>
    ensures { result ≡ cond (is_value item.now) (Some (value_of item.now)) None }
{
    let number = read_number(item)?;
    let size = i16::try_from(number.size).ok()?;
    let value = if number.minus { -size } else { size };
    i8::try_from(value).ok()
}

// The values of a line, at the start of `values`, and how many they are: 512 bytes hold at most 256 of them. Their count is given and no
// slice, since the promise is of the lent array.
pub fn read_values(text: &[u8], values: &mut [i8; 256]) -> Option<usize>
    requires { length values.old ≡ 256 }
    ensures fits { IfSome result (λ count. count ≤ length values.new) }
    ensures holds { option_map (λ count. take count values.new) result ≡ values_of text.now }
{
    if LONGEST < text.len() {
        return None;
    }
    let mut count = 0;
    for item in Items(Some(text)) {
        values[count] = read_value(item)?;
        count += 1;
    }
    Some(count)
}
