// The records as rows of numbers, and a payload's in a lent row.
#![tactic(auto)]

pub mod handing;
pub mod record;
mod row;
