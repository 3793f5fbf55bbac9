// What each line of the input prints, by what the program awaits. The whole program as one function is specs/Program.
#![tactic(auto)]

pub mod answer; // answer.rt: what a first line and a word line print
pub mod phase; // phase.rt: what a finished line prints, and what is awaited after it
