// The region table of what a slot holds.
#![tactic(auto)]

pub mod rows;

ghost use Rattle.std.specs.Prelude.{◌≡◌, length};
ghost use Rattle.lent.specs.Lent.{left};
ghost use Rattle.region_table.specs.Rows.{wrote};
ghost use Rattle.region_table.specs.Table.{split_of, table_of_held, tabling, table_in};

use crate::rows::Split;
use bits::refusal::Refusal;
use held::{Held, HeldFramePacking};
use slots::{Slot, Slots};

// How the rows are split, where a table can be made. Without the matching flag the held kind 45 is not looked at; with it, its type alone is.
#[tactic(auto, unfolding(crate::specs::Table::split_of))]
fn split_of(matching: u8, packing: HeldFramePacking) -> Option<Split>
    ensures { result ≡ split_of matching packing }
{
    match (
        matching,
        packing.on,
        packing.value.layout.fp_arrangement_type,
    ) {
        (0, _, _) => Some(Split::Whole),
        (_, 1, 3) => Some(Split::Beside),
        (_, 1, 4) => Some(Split::Below),
        _ => None,
    }
}

// The table of what is held: how many rows were written, or why none was.
#[tactic(auto, using(std::proofs::lemmas::Result::err_from_is_err_and), unfolding(crate::specs::Table::table_of_held))]
pub fn table_of(held: Held, lent: &mut [u64]) -> Result<u32, Refusal>
    ensures { left result lent.new ≡ wrote (table_of_held held (length lent.old)) lent.old }
{
    let region_wise = held.region_wise;
    if region_wise.on != 1 {
        return Err(Refusal::table());
    }
    let value = region_wise.value;
    let matching = value.rwp_constituent_picture_matching_flag;
    let split = split_of(matching, held.frame_packing).ok_or(Refusal::table())?;
    rows::write(value, split, lent)
}

// A refusal writes nothing, and the numbers past the rows stay; here and below.
pub fn table_slot(here: Slot, lent: &mut [u64]) -> Result<u32, Refusal>
    ensures { left result lent.new ≡ wrote (tabling (length lent.old) here).1 lent.old }
{
    if !here.is_open() {
        return Err(Refusal::slot());
    }
    table_of(here.held, lent)
}

#[tactic(auto, using(crate::proofs::TableLaws::found))]
pub fn table(slots: Slots, n: u64, lent: &mut [u64]) -> Result<u32, Refusal>
    ensures { left result lent.new ≡ wrote (table_in slots n (length lent.old)) lent.old }
{
    table_slot(slots.slot(n), lent)
}
