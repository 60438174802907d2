// Why a payload, or a call, is refused. Refusals are made in this crate and handed up whole.
ghost use Rattle.std.specs.Prelude.{◌≡◌};
ghost use Rattle.bits.specs.Refusals.{refusal_number, by_kind, by_size, by_slot, by_table, by_rows, broken, too_many, refusal_of};

use crate::cursor::Cursor;

#[derive(Clone, Copy, Debug, PartialEq, Eq)]
pub enum Refusal {
    // The kind is none that is read.
    Kind,
    // The stated size exceeds the limit or the lent length.
    Size,
    // The next element needs a bit at or past the payload's end.
    Short,
    // A ue(v) has a 32nd leading zero.
    Zeros,
    // A rule on a field's value is broken.
    Rule,
    // There are more regions than a record holds.
    Regions,
    // The tail is not permitted.
    Tail,
    // There is no such slot, or it is closed.
    Slot,
    // No region table can be made.
    Table,
    // The lent rows are too few.
    Rows,
}

impl Refusal {
    // The number that a caller gets.
    pub fn number(self) -> u32
        ensures { result ≡ refusal_number self }
    {
        match self {
            Refusal::Kind => 1,
            Refusal::Size => 2,
            Refusal::Short => 3,
            Refusal::Zeros => 4,
            Refusal::Rule => 5,
            Refusal::Regions => 6,
            Refusal::Tail => 7,
            Refusal::Slot => 8,
            Refusal::Table => 9,
            Refusal::Rows => 10,
        }
    }

    pub fn kind() -> Refusal
        ensures { result ≡ by_kind }
    {
        Refusal::Kind
    }

    pub fn size() -> Refusal
        ensures { result ≡ by_size }
    {
        Refusal::Size
    }

    pub fn slot() -> Refusal
        ensures { result ≡ by_slot }
    {
        Refusal::Slot
    }

    pub fn table() -> Refusal
        ensures { result ≡ by_table }
    {
        Refusal::Table
    }

    pub fn rows() -> Refusal
        ensures { result ≡ by_rows }
    {
        Refusal::Rows
    }

    // The refusal of an element that breaks a rule; the element starts at the cursor.
    pub fn rule(_at: Cursor) -> Refusal
        ensures { result ≡ refusal_of broken }
    {
        Refusal::Rule
    }

    // The refusal of a count of regions above the limit; the count starts at the cursor.
    pub fn regions(_at: Cursor) -> Refusal
        ensures { result ≡ refusal_of too_many }
    {
        Refusal::Regions
    }
}
