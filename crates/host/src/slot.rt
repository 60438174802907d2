// What a C player calls on the eight slots. They are the player's, and are changed where they lie: no call copies all eight, and one that is
// refused stores nothing in them. A C caller gets numbers in place of enums, and any value of the structs is fine, also one that no call
// made.
ghost use Rattle.std.specs.Prelude.{◌≡◌, length};
ghost use Rattle.slots.specs.Slots.{start};
ghost use Rattle.lent.specs.Lent.{left};
ghost use Rattle.region_table.specs.Rows.{wrote};
ghost use Rattle.region_table.specs.Table.{table_of_held, table_in};
ghost use Rattle.isolation.specs.Runs.{opens, closes, sequences, pictures, feeds};
ghost use Rattle.host.specs.Slot.{tabled_in_numbers, left_in_numbers, slots_size};
ghost use Rattle.host.specs.Seen.{called, fed, pictured, c_step};

use bits::refusal::Refusal;
use feeding::filling::{Reply, feed};
use held::Held;
use slots::{Slot, Slots, number};

// The bytes of the slots: a player can see at its start that its header has the same.
#[unsafe(no_mangle)]
pub extern "C" fn bruskelde_slots_size() -> u64
    ensures { result ≡ slots_size }
{
    6080
}

// Slot by slot, so that the stack holds one and not all.
#[unsafe(no_mangle)]
pub extern "C" fn bruskelde_start(slots: &mut Slots)
    ensures { slots.new ≡ start }
{
    slots.slots.fill(Slot::closed());
}

#[unsafe(no_mangle)]
pub extern "C" fn bruskelde_open(slots: &mut Slots, slot: u64) -> u32
    ensures { (slots.new, called result) ≡ c_step slots.old (opens slot) }
{
    number(slots.open(slot))
}

#[unsafe(no_mangle)]
pub extern "C" fn bruskelde_close(slots: &mut Slots, slot: u64) -> u32
    ensures { (slots.new, called result) ≡ c_step slots.old (closes slot) }
{
    number(slots.close(slot))
}

#[unsafe(no_mangle)]
pub extern "C" fn bruskelde_sequence(slots: &mut Slots, slot: u64) -> u32
    ensures { (slots.new, called result) ≡ c_step slots.old (sequences slot) }
{
    number(slots.sequence(slot))
}

#[unsafe(no_mangle)]
pub extern "C" fn bruskelde_feed(
    slots: &mut Slots,
    slot: u64,
    kind: u64,
    size: u64,
    bytes: &[u8],
) -> Reply
    ensures { (slots.new, fed result.number result.extension) ≡ c_step slots.old (feeds slot kind size bytes.now) }
{
    feed(slots, slot, kind, size, bytes)
}

// What is shown is the five records as they were; a refusal shows zeros.
#[unsafe(no_mangle)]
pub extern "C" fn bruskelde_picture(slots: &mut Slots, slot: u64, shown: &mut Held) -> u32
    ensures { (slots.new, pictured result shown.new) ≡ c_step slots.old (pictures slot) }
{
    number(slots.picture(slot, shown))
}

// The number, and how many rows were written.
#[repr(C)]
#[derive(Clone, Copy)]
pub struct Tabled {
    pub number: u32,
    pub rows: u32,
}

impl Tabled {
    fn of(t: Result<u32, Refusal>) -> Tabled
        ensures { result ≡ tabled_in_numbers t }
    {
        match t {
            Ok(n) => Tabled { number: 0, rows: n },
            Err(why) => Tabled {
                number: why.number(),
                rows: 0,
            },
        }
    }
}

// The table of what a slot holds.
fn table_of(held: Held, lent: &mut [u64]) -> Tabled
    ensures { left result lent.new ≡ left_in_numbers (wrote (table_of_held held (length lent.old)) lent.old) }
{
    let answer = region_table::table_of(held, lent);
    Tabled::of(answer)
}

// The slots stay. A refusal writes nothing, and the numbers past the rows stay.
#[unsafe(no_mangle)]
pub extern "C" fn bruskelde_table(slots: &Slots, slot: u64, lent: &mut [u64]) -> Tabled
    ensures { left result lent.new ≡ left_in_numbers (wrote (table_in slots.now slot (length lent.old)) lent.old) }
{
    if 8 <= slot {
        return Tabled { number: 8, rows: 0 };
    }
    let here = &slots.slots[slot as usize];
    if here.open != 1 {
        return Tabled { number: 8, rows: 0 };
    }
    table_of(here.held, lent)
}
