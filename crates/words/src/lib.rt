// Words of a code: n, k and W, and a word as bytes.
#![tactic(auto)]

pub mod packing; // a word as bytes
pub mod shape; // n, k and W

pub use packing::{put_word, word_in};
pub use shape::{Code, Shortened};
