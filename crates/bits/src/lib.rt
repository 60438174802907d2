// The elements of a payload. Every function here takes the payload as one slice, which is the payload and nothing else:
// bits are counted from 0, the most significant of each byte first, and a cursor is the number of the next bit.
#![tactic(auto)]

pub mod cursor;
pub mod element;
pub mod ending;
pub mod identifier;
pub mod read;
pub mod refusal;
pub mod unsigned;
