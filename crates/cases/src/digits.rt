// Digits: the bytes that they stand for.
ghost use Rattle.std.specs.Prelude.{◌≡◌, ℕ, ◌+◌, ◌*◌, ◌<◌, ◌⊎◌, Some, None, IfSome};
ghost use Rattle.cases.specs.Digits.{digit_value};

// The number of one of sixteen digits. A capital letter is none, though `to_digit` takes it.
fn hex_digit(byte: u8) -> Option<u8>
    ensures below { IfSome result (λ d. d < 16) }
    ensures value { result ≡ digit_value byte }
{
    match byte {
        b'0'..=b'9' => Some(byte - b'0'),
        b'a'..=b'f' => Some(byte - b'a' + 10),
        _ => None,
    }
}

// The byte of two digits.
pub fn hex_byte(high: u8, low: u8) -> Option<u8>
    ensures digits { (h l : ℕ) → digit_value high ≡ Some h → digit_value low ≡ Some l → result ≡ Some (16 * h + l) }
    ensures none { (digit_value high ≡ None) ⊎ (digit_value low ≡ None) → result ≡ None }
{
    Some(16 * hex_digit(high)? + hex_digit(low)?)
}
