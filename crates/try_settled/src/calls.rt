// The three calls: each is made as its line says, and the line is printed with what it answers.
ghost use Rattle.std.specs.Prelude.{◌≤◌};

use cases::scan::{bytes_at, number, short, values_at};
use cases::text::{SPACE, put_line};

// A line that tells how many bytes were changed has thousands of them, and any other what it lists.
fn tells_changed(line: &[u8]) -> bool {
    line.contains(&b'h')
}

pub fn encode_line(line: &[u8]) {
    let room = number(line, 5) as usize % (SPACE + 1);
    let mut space = [255; SPACE];
    let answer = codec::encode(
        short(line, 1),
        short(line, 2),
        short(line, 3),
        number(line, 4),
        &mut space[..room],
    );
    put_line(line, &[u64::from(answer)], &space);
}

pub fn read_line(line: &[u8]) {
    let mut space = [255; SPACE];
    let listed = bytes_at(line, 4, &mut space);
    let count = if tells_changed(line) { SPACE } else { listed };
    let reading = codec::read(
        short(line, 1),
        short(line, 2),
        short(line, 3),
        &space[..count],
    );
    put_line(
        line,
        &[
            u64::from(reading.refusal),
            reading.message,
            u64::from(reading.at),
        ],
        &space,
    );
}

// The bytes that a line of a decoding lists: four of its marks are numbers.
fn listed_bytes(line: &[u8]) -> usize
    ensures { result ≤ SPACE }
{
    let marks = line.iter().filter(|&&b| b == b'?').count();
    marks.wrapping_sub(4) % (SPACE + 1)
}

fn decode_values(line: &[u8], values: &[i8]) {
    let room = if tells_changed(line) {
        SPACE
    } else {
        listed_bytes(line)
    };
    let mut space = [255; SPACE];
    let decoding = decode::decode(
        short(line, 1),
        short(line, 2),
        short(line, 3),
        short(line, 4),
        values,
        &mut space[..room],
    );
    put_line(
        line,
        &[
            u64::from(decoding.refusal),
            u64::from(decoding.distance),
            u64::from(decoding.flips),
            u64::from(decoding.candidates),
        ],
        &space,
    );
}

// Thousands of values are told as `4096 times 10`, and not read.
pub fn decode_line(line: &[u8]) {
    let mut values = [10; SPACE];
    let count = if tells_changed(line) {
        short(line, 5) as usize % (SPACE + 1)
    } else {
        values_at(line, 5, &mut values)
    };
    decode_values(line, &values[..count]);
}
