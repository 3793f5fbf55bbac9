// Standard output, for `writeln!`.
use std::fmt;

// Here and in `cases`, since no crate lies below both, and what try_random is made of shares nothing with the other programs.
const STDOUT_FILENO: i32 = 1;

// By the kit's `io`: std's `println!` would rest on the contract of one more of C's functions, `errno`, and nothing new is to be assumed.
#[derive(Drop)]
pub struct Output;

impl fmt::Write for Output {
    // What can't be written is passed over.
    fn write_str(&mut self, text: &str) -> fmt::Result {
        io::write_all(STDOUT_FILENO, text.as_bytes());
        Ok(())
    }
}
