// Kinds 4 and 5, user data: the heads of their messages. The rest, which is handed back as a part of the caller's bytes (RULES 4.4, 4.5),
// starts at the byte where a head ends, and is no matter of this crate.
#![tactic(auto)]

pub mod registered;
pub mod unregistered;
