// The format language, in specs/, with its theorems, in proofs/. Of code there is only what kinds share: elements with a rule, and lists.
#![tactic(auto)]

pub mod guard;
pub mod limit;
pub mod list;
