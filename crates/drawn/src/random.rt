// Numbers without a pattern, the same in every run: a xorshift of 64 bits; and words of values drawn from them.
ghost use Rattle.std.specs.Prelude.{ℕ, ◌<◌};

// The state after this one. It is never 0 where it was not 0 before.
pub fn next(x: u64) -> u64 {
    let a = x ^ (x << 13);
    let b = a ^ (a >> 7);
    b ^ (b << 17)
}

// A state of another run of numbers, so that no two words are made of the same.
pub fn other(x: u64) -> u64 {
    next(x ^ 0x9e3779b97f4a7c15)
}

// What is drawn from a state: its lowest bits are left out.
pub fn drawn(x: u64) -> u64 {
    x >> 11
}

// A word with the value that a position and what is drawn there give; positions from `sent` on are unsent and count as 127.
pub fn drawn_word<F: Fn(usize, u64) -> i8>(value: F, sent: usize, seed: u64) -> [i8; 15]
    requires { (p x : ℕ) → p < 15 → F.pre value p x }
{
    let mut word = [127; 15];
    let mut x = seed;
    for p in 0..sent.min(15) {
        word[p] = value(p, drawn(x));
        x = next(x);
    }
    word
}
