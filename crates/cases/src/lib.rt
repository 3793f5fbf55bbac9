// Stored cases of a test program, a line a case: what stands in a line, and the line printed with what its call answers.
#![tactic(auto)]

pub mod digits; // digits.rt: what digits stand for
pub mod scan; // scan.rt: what stands in a line
pub mod text; // text.rt: what is printed
