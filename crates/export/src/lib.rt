// The calls for C hosts: numbers and lent memory in, a refusal's number out, and what a refusal says beside its number from a call of its
// own that writes nothing. export_c exports them.
#![tactic(auto)]

ghost use Rattle.std.specs.Prelude.{◌≡◌};
ghost use Rattle.codec.specs.Encode.{EncodeAnswers};
ghost use Rattle.codec.specs.Read.{ReadAnswers};
ghost use Rattle.export.specs.Told.{told, DecodeTold, ReadTold, FaultTold};
ghost use Rattle.export.specs.Inner.Narrow.{Narrows};

// A host's number for the calls. One that is too large stands as the largest, which every check refuses as it does the number.
fn narrow(x: u32) -> u16
    ensures { Narrows x result }
{
    u16::try_from(x).unwrap_or(u16::MAX)
}

// Writes the numbers over the first places of the lent memory, as many as there is room for; on a refusal none. The refusal comes by its
// number, as the calls answer it.
fn tell<T: Copy>(refusal: u8, numbers: &[T], memory: &mut [T])
    ensures { memory.new ≡ told refusal numbers.now memory.old }
{
    if 0 < refusal {
        return;
    }
    let count = numbers.len().min(memory.len());
    memory[..count].copy_from_slice(&numbers[..count]);
}

// Encodes a message into the word.
pub fn malligovu_encode(m: u32, t: u32, s: u32, message: u64, word: &mut [u8]) -> u32
    ensures { EncodeAnswers m t s message word.old result word.new }
{
    u32::from(codec::encode(narrow(m), narrow(t), narrow(s), message, word))
}

// Read's answer, for a host's numbers.
fn reading_of(m: u32, t: u32, s: u32, word: &[u8]) -> codec::Reading
    ensures { ReadAnswers m t s word.now result }
{
    codec::read(narrow(m), narrow(t), narrow(s), word)
}

// Reads the word, and tells its message.
pub fn malligovu_read(m: u32, t: u32, s: u32, word: &[u8], message: &mut [u64]) -> u32
    ensures { ReadTold m t s word.now message.old result message.new }
{
    let reading = reading_of(m, t, s, word);
    tell(reading.refusal, &[reading.message], message);
    u32::from(reading.refusal)
}

// Tells where read finds its fault, for the same arguments: with 9 the position, with 10 the power, and else 0.
pub fn malligovu_fault(m: u32, t: u32, s: u32, word: &[u8]) -> u32
    ensures { FaultTold m t s word.now result }
{
    let reading = reading_of(m, t, s, word);
    u32::from(reading.at)
}

// Decodes the soft values into the word, and tells of it in the figures.
pub fn malligovu_decode(
    m: u32,
    t: u32,
    s: u32,
    order: u32,
    soft: &[i8],
    word: &mut [u8],
    figures: &mut [u32],
) -> u32
    ensures { DecodeTold m t s order soft.now word.old figures.old result
        word.new figures.new }
{
    let decoding = decode::decode(narrow(m), narrow(t), narrow(s), narrow(order), soft, word);
    let distance = u32::from(decoding.distance);
    let flips = u32::from(decoding.flips);
    tell(
        decoding.refusal,
        &[distance, flips, decoding.candidates],
        figures,
    );
    u32::from(decoding.refusal)
}
