// The record block: written, checked, read, and never misread.
#![tactic(auto)]

pub mod read; // a record from a block
mod sums; // the check
pub mod write; // a record as a block
