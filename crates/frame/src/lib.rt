// What each call refuses before it looks at a word, and the refusals' numbers.
#![tactic(auto)]

pub mod checks; // the first check that is met, in each call's order
pub mod refusal; // the refusals and their numbers, and the number of each call's checks

pub use checks::{decode_checks, encode_checks, header_checks, read_checks, shortened_code};
pub use refusal::{TAKEN, decode_refusal, encode_refusal, header_refusal, read_refusal};
