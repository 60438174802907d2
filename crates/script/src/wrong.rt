// Lines that are wrong: what is wrong, and what is expected.
ghost use Rattle.std.specs.Prelude.{◌≡◌};

use crate::name::Name;
use print::{Fault, Out};

#[derive(Clone, Copy, Debug, PartialEq, Eq)]
pub enum Why {
    NoSlot,
    NoCount,
    NoKind,
    NoSize,
    NoNumber,
    Large,
    TooMuch,
    Odd,
    NoHex,
    Long,
    NoCall,
}

impl Why {
    fn text(self) -> &'static str {
        match self {
            Why::NoSlot => "the slot number is missing",
            Why::NoCount => "how many numbers are lent is missing",
            Why::NoKind => "the kind is missing",
            Why::NoSize => "the size is missing",
            Why::NoNumber => "is no decimal number",
            Why::Large => "does not fit 64 bits",
            Why::TooMuch => "is too much",
            Why::Odd => "a byte is two hex digits that stand together",
            Why::NoHex => "starts with no hex digit",
            Why::Long => "more than 10000 bytes",
            Why::NoCall => "is no call",
        }
    }
}

// Why a line spells no call, and the word that is wrong, if there is one.
#[derive(Clone, Copy)]
pub struct Wrong<'a> {
    pub why: Why,
    pub word: &'a [u8],
}

// What may stand where no call is named.
const CALLS: &str = "open, close, sequence, picture, table, feed, read, explain or help";

impl<'a> Wrong<'a> {
    pub fn new(why: Why, word: &'a [u8]) -> Wrong<'a>
        ensures { result.why ≡ why }
    {
        Wrong { why, word }
    }

    // Says it of a line, by its number, and of the call that the line names. The line is marked as wrong.
    pub fn say(self, out: &mut Out, line: u64, name: Option<Name>) {
        out.text("line ");
        out.number(line);
        out.text(": ");
        if !self.word.is_empty() {
            out.text("'");
            out.printable(self.word);
            out.text("' ");
        }
        out.text(self.why.text());
        out.text("; expected: ");
        out.text(name.map_or(CALLS, |name| name.form()));
        out.text("\n");
        out.flush();
        out.mark(Fault::Line);
    }
}

// Says of a line, by its number, that it is too long. It is marked as wrong too.
pub fn long(out: &mut Out, line: u64) {
    out.text("line ");
    out.number(line);
    out.text(": the line is longer than 32767 characters\n");
    out.flush();
    out.mark(Fault::Line);
}
