// Which flips lead nowhere: the non-binary parts of the columns, and the ranks in chains by these parts (docs/SPEED.md).
#![tactic(auto)]

pub mod columns; // the parts of the columns
pub mod chains; // the ranks by the parts of their columns, and which rank is flipped next
pub mod flips; // the flips that are made, with their part
