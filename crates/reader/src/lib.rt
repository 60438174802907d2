// One reader for any kind, size and bytes.
#![tactic(auto)]

pub mod brief;
pub mod entry;
pub mod payload;
pub mod regions;
pub mod user;
pub mod verdict;
