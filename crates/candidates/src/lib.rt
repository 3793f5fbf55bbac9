// What one pattern makes, and the best candidate so far (document 01, "The search").
#![tactic(auto)]

pub mod best; // a candidate, and the best of those seen
pub mod pattern; // a pattern's symbols outside the reliable set, and its candidate
