// Words of 15 values that are drawn without a pattern: for try_random.
#![tactic(auto)]

pub mod random; // numbers without a pattern
pub mod kinds; // random words of several kinds
pub mod drafts; // words that were sent, at the edge of demand 3
