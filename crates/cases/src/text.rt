// What is printed: a line, with what its call answers in the place of its question marks.
ghost use Rattle.std.specs.Prelude.{◌≤◌, length};

// Standard input.
const STDIN_FILENO: i32 = 0;

// Standard output.
const STDOUT_FILENO: i32 = 1;

// How many bytes the buffer has whose first bytes a call is lent.
pub const SPACE: usize = 4096;

// The stored cases: what stands on standard input, as far as the lent bytes hold it.
pub fn read_stored(space: &mut [u8]) -> &[u8]
    ensures { length result.now ≤ length space.old }
{
    let count = io::read_full(STDIN_FILENO, space);
    &space[..count]
}

pub fn put_text(text: &[u8]) {
    io::write_all(STDOUT_FILENO, text);
}

pub fn put_number(number: u64) {
    io::print_decimal(STDOUT_FILENO, number);
}

// A byte, as two digits.
pub fn put_byte(byte: u8) {
    io::print_hex(STDOUT_FILENO, u64::from(byte), 2);
}

// The k-th of what a call answers: its numbers, the first eleven bytes of the buffer, and how many of the other bytes are not ff.
fn put_answer(numbers: &[u64], space: &[u8; SPACE], k: usize) {
    if let Some(&number) = numbers.get(k) {
        put_number(number);
        return;
    }
    let (listed, others) = space.split_at(11);
    match listed.get(k - numbers.len()) {
        Some(&byte) => put_byte(byte),
        None => put_number(others.iter().filter(|&&b| b != 255).count() as u64),
    }
}

// The texts of a line, and an answer in the place of each question mark between them.
pub fn put_line(line: &[u8], numbers: &[u64], space: &[u8; SPACE]) {
    for (k, text) in line.split(|&b| b == b'?').enumerate() {
        if 0 < k {
            put_answer(numbers, space, k - 1);
        }
        put_text(text);
    }
}
