// A script: its lines, the calls that they spell, and what is wrong with one.
#![tactic(auto)]

mod argument;
pub mod call;
pub mod input;
pub mod line;
mod name;
mod payload;
mod wrong;
