// The codewords of 15 bits by their roots alone: every word is tried.
ghost use Rattle.std.specs.Prelude.{◌≤◌, length};

// a times x in the field of 16 elements, where a^4 = a + 1.
fn times_a(x: u64) -> u64 {
    if x < 8 { x << 1 } else { (x << 1) ^ 19 }
}

// a^0, a^1, .., a^14.
pub fn powers() -> [u64; 15] {
    let mut powers = [1; 15];
    let mut x = 1;
    for power in powers.iter_mut() {
        *power = x;
        x = times_a(x);
    }
    powers
}

// The polynomial of a word at a^e: the sum of a^(p * e) over its ones.
fn value_at(powers: &[u64; 15], w: u64, e: usize) -> u64 {
    let e = e % 15;
    let mut sum = 0;
    for p in 0..15 {
        if (w >> p) % 2 == 1 {
            sum ^= powers[p * e % 15];
        }
    }
    sum
}

// The lowest of the powers 1, 2, .., 2t at which a word is not zero; none where it is zero at all of them, and so a codeword.
pub fn lowest_power(powers: &[u64; 15], w: u64, t: u16) -> Option<usize> {
    (1..=2 * usize::from(t)).find(|e| value_at(powers, w, *e) != 0)
}

// The codewords, the lowest first, in the front of a list; those past its end are left out.
pub fn list_codewords(t: u16, list: &mut [u64]) -> &[u64]
    ensures { length result.now ≤ length list.old }
{
    let powers = powers();
    let mut count = 0;
    for w in (0..32768).filter(|w| lowest_power(&powers, *w, t).is_none()) {
        if let Some(place) = list.get_mut(count) {
            *place = w;
            count += 1;
        }
    }
    &list[..count]
}
