// The search of the soft decoder: all patterns with few flips (document 01, "The search").
#![tactic(auto)]

pub mod patterns;
