// One call of decode, and whether all of its answer and of its buffer is that of the exhaustive search; and a call of read on the buffer.
use every_word::same_reading;
use exhaustive::candidates::{Found, search};
use exhaustive::reader::read;
use exhaustive::setting::Setting;
use tally::Outcome;

// The answer as it has to be, no bit otherwise: "A refusal returns its number with all other fields zero". The numbers are decode's answer
// to C hosts, written here once more.
fn same_answer(answer: decode::Decoding, found: Found) -> bool {
    let (refusal, distance, flips) = match found.nearest {
        Some(nearest) => (0, nearest.distance, nearest.flips),
        // no candidate
        None => (6, 0, 0),
    };
    (
        answer.refusal,
        u64::from(answer.distance),
        u32::from(answer.flips),
        u64::from(answer.candidates),
    ) == (refusal, distance, flips, found.count)
}

// The first two bytes of a buffer.
fn word_in(buf: &[u8; 5]) -> u64 {
    u64::from(u16::from_le_bytes([buf[0], buf[1]]))
}

// A buffer that had `fill` in each byte, with a word written into two of them or with nothing written.
fn same_buffer(buf: &[u8; 5], fill: u8, written: Option<u64>) -> bool {
    match written {
        Some(word) => word_in(buf) == word && buf[2..].iter().all(|byte| *byte == fill),
        None => buf.iter().all(|byte| *byte == fill),
    }
}

pub fn compare(setting: Setting, values: &[i8; 15], fill: u8) -> Outcome {
    let Setting { t, s, order, .. } = setting;
    let found = search(setting.codewords, values, t, order);
    let mut buf = [fill; 5];
    let answer = decode::decode(4, t, s, order, &values[..15 - usize::from(s)], &mut buf);
    let word = (answer.refusal == 0).then(|| word_in(&buf));
    let wanted = found.nearest.map(|nearest| nearest.word);
    Outcome {
        same: same_answer(answer, found) && same_buffer(&buf, fill, wanted),
        tied: found.nearest.is_some_and(|nearest| 1 < nearest.tied),
        word,
        unsent: word.is_some_and(|word| word >> (15 - s) != 0),
        read: word.is_none_or(|word| same_reading(
            codec::read(4, t, s, &buf),
            read(word, t, s).into(),
        )),
    }
}
