// What a line of the input says, as functions on slices: the header, and the values of a word line.
#![tactic(auto)]

pub mod header; // header.rt: the first line
pub mod word_line; // word_line.rt: the values of a word line

// A line has at most so many bytes before its newline.
const LONGEST: usize = 512;
