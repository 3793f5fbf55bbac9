// The calls for C hosts under the names that they are linked by; each is export's, and promises the same. include/malligovu.h declares
// them.
#![tactic(auto)]

ghost use Rattle.codec.specs.Encode.{EncodeAnswers};
ghost use Rattle.export.specs.Told.{DecodeTold, ReadTold, FaultTold};

// Encodes a message into the word.
#[unsafe(no_mangle)]
pub extern "C" fn malligovu_encode(m: u32, t: u32, s: u32, message: u64, word: &mut [u8]) -> u32
    ensures { EncodeAnswers m t s message word.old result word.new }
{
    export::malligovu_encode(m, t, s, message, word)
}

// Reads the word, and tells its message.
#[unsafe(no_mangle)]
pub extern "C" fn malligovu_read(m: u32, t: u32, s: u32, word: &[u8], message: &mut [u64]) -> u32
    ensures { ReadTold m t s word.now message.old result message.new }
{
    export::malligovu_read(m, t, s, word, message)
}

// Tells where read finds its fault, for the same arguments: with 9 the position, with 10 the power, and else 0.
#[unsafe(no_mangle)]
pub extern "C" fn malligovu_fault(m: u32, t: u32, s: u32, word: &[u8]) -> u32
    ensures { FaultTold m t s word.now result }
{
    export::malligovu_fault(m, t, s, word)
}

// Decodes the soft values into the word, and tells of it in the figures.
#[unsafe(no_mangle)]
pub extern "C" fn malligovu_decode(
    m: u32,
    t: u32,
    s: u32,
    order: u32,
    soft: &[i8],
    word: &mut [u8],
    figures: &mut [u32],
) -> u32
    ensures { DecodeTold m t s order soft.now word.old figures.old result
        word.new figures.new }
{
    export::malligovu_decode(m, t, s, order, soft, word, figures)
}
