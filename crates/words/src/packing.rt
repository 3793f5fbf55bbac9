// A word as bytes, the lowest byte first.
ghost use Rattle.std.specs.Prelude.{◌≡◌, ◌++◌, ◌≤◌, length, drop};
ghost use Rattle.words.specs.Packing.{packed, unpacked};

// Writes the low n bytes of a word over the first n bytes of the buffer. n stands beside it, since a host's buffer may be longer; and byte
// by byte, since `to_le_bytes` would ask that n is at most 8.
pub fn put_word(word: u64, n: usize, buf: &mut [u8])
    requires { n ≤ length buf.old }
    ensures { buf.new ≡ packed word n ++ drop n buf.old }
{
    let mut x = word;
    for byte in buf[..n].iter_mut() {
        *byte = (x % 256) as u8;
        x /= 256;
    }
}

// The word whose bytes are the first n, from the highest of them down; n stands beside them, as above.
pub fn word_in(bytes: &[u8], n: usize) -> u64
    requires { (n ≤ 8) × (n ≤ length bytes.now) }
    ensures { result ≡ unpacked bytes.now n }
{
    let mut word = 0;
    for i in (0..n).rev() {
        word = word * 256 + u64::from(bytes[i]);
    }
    word
}
