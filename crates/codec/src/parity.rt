// The word of a message: the message at the top, and below it the parity that makes a codeword.
ghost use Rattle.std.specs.Prelude.{◌≡◌, ◌+◌, ◌^◌, ◌≤◌, ◌<◌};
ghost use Rattle.codes.specs.Code.{Known, dimension_of, parity_of, generator_of};
ghost use Rattle.codes.specs.Generator.{remainder_by, systematic};

use words::Code;

// The generator of each code: a row for each m, from 4, and in it an entry for each t, from 1.
const GENERATORS: [u64; 9] = [
    0o23, 0o721, 0o2467, 0o45, 0o3551, 0o107657, 0o103, 0o12471, 0o1701317,
];

fn generator_of(code: Code) -> u64
    ensures { result ≡ generator_of code.m code.t }
{
    GENERATORS[code.place()]
}

// n - k, the number of parity bits.
pub fn parity_bits(m: u16, t: u16) -> usize
    requires { Known m t }
    ensures { (result ≡ parity_of m t) × (result + dimension_of m t ≤ 63) }
{
    Code { m, t }.parity()
}

// What is left of a word when it is divided by the generator. At each place from the top, of what is left and its sum with the generator
// moved there, the smaller has no coefficient at that place.
fn remainder(code: Code, word: u64) -> u64
    requires { word < 2 ^ (parity_of code.m code.t + dimension_of code.m code.t) }
    ensures { result ≡ remainder_by (parity_of code.m code.t) (generator_of code.m code.t) (dimension_of code.m code.t) word }
{
    let k = code.dimension();
    let mut left = word;
    let mut moved = generator_of(code) << k;
    for _ in 0..k {
        moved /= 2;
        left = left.min(left ^ moved);
    }
    left
}

// The codeword whose high bits are the message.
pub fn word_of(m: u16, t: u16, message: u64) -> u64
    requires { Known m t × (message < 2 ^ dimension_of m t) }
    ensures { result ≡ systematic m t message }
{
    let code = Code { m, t };
    let moved = message << parity_bits(m, t);
    moved ^ remainder(code, moved)
}
