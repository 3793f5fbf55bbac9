// The value of a word at a power of a, and the lowest power at which it is not zero (Req 02).
#![tactic(auto)]

ghost use Rattle.std.specs.Prelude.{◌≡◌, ◌*◌, ◌^◌, ◌≤◌, ◌<◌};
ghost use Rattle.field.specs.Field.{length_of};
ghost use Rattle.field.specs.Lowest.{lowest_of};
ghost use Rattle.codes.specs.Codeword.{bit_of, value_at};

use gf::Field;

// The word's polynomial at a^e: the sum of a^(pe) over its ones, the lowest position first.
pub fn value_at(m: u8, word: u64, e: u8) -> u8
    requires { (4 ≤ m) × (m ≤ 6) × (word < 2 ^ length_of m) }
    ensures { result ≡ value_at m (bit_of word) e }
{
    let field = Field::new(m);
    let mut sum: u8 = 0;
    let mut power: u8 = 1;
    let mut rest = word;
    // No index is counted: it goes on while a one is left, and a `for` over the positions would not stop there.
    while 0 < rest {
        if rest % 2 == 1 {
            sum ^= power;
        }
        power = field.alpha_times(e, power);
        rest /= 2;
    }
    sum
}

// The lowest of the powers 1, .., 2t at which the word is not zero; 2t + 1 where it is zero at all of them. Only the odd ones are looked
// at, since it is one of those (FaultyPowersAreOdd).
pub fn lowest_power(m: u8, t: u8, word: u64) -> u8
    requires { (4 ≤ m) × (m ≤ 6) × (t ≤ 3) × (word < 2 ^ length_of m) }
    ensures { result ≡ lowest_of 1 (2 * t) (value_at m (bit_of word)) }
{
    for e in (1..2 * t).step_by(2) {
        if value_at(m, word, e) != 0 {
            return e;
        }
    }
    2 * t + 1
}
