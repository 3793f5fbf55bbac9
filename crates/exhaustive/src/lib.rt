// What decode and read have to answer on a word of 15 bits, and what demand 3 supposes, by the definitions of document 01 and Req 02 and
// nothing of the decoder's or the reader's: for try_random, which compares. That a position is below 15 and t and s are small are clauses
// of a line each: types for them would be met in a function or two.
#![tactic(auto)]

pub mod setting; // a code, a shortening and an order
pub mod received; // received words
pub mod roots; // the codewords by their roots
pub mod candidates; // the search over all codewords
pub mod sent; // what demand 3 supposes
pub mod reader; // which check of a word fails, and where
