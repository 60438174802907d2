// The words of a line: where they stand, and the numbers and bytes that they spell.
#![tactic(auto)]

pub mod hex;
pub mod number;
pub mod place;
