// A received word of 15 values: its hard decisions, and the value with a hard decision and a size.
ghost use Rattle.std.specs.Prelude.{◌≡◌, ◌≢◌, ◌%◌, pos, neg_ℤ};

// The value with a hard decision and a size, as far as there is one: 0 has hard decision 0, and 128 goes with 1 alone.
pub fn value_with(bit: u64, size: u64) -> i8
    ensures zero { bit ≡ 0 → result ≡ pos (size % 128) }
    ensures one { bit ≢ 0 → result ≡ neg_ℤ (pos (size % 129)) }
{
    if bit == 0 {
        (size % 128) as i8
    } else {
        ((size % 129) as u8).wrapping_neg().cast_signed()
    }
}

// The hard decisions, bit p for position p: a negative value is 1, zero or above is 0.
pub fn hards(word: &[i8; 15]) -> u64 {
    let mut bits = 0;
    for (p, value) in word.iter().enumerate() {
        if *value < 0 {
            bits |= 1 << p;
        }
    }
    bits
}
