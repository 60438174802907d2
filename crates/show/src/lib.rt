// What a user sees of answers, held records and region tables: each field by its name in H.274, with its value, and in words where asked.
// The values are those of the row that crate record_row lays out; each kind's names stand beside it here, in the row's order.
#![tactic(auto)]

pub mod answer;
mod depth_names;
mod emulation;
mod field;
mod fraction;
mod guard;
pub mod kind;
mod names;
pub mod number;
mod region_names;
mod rotation_names;
pub mod style;
pub mod table;
mod user_names;
