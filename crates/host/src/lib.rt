// What a C player calls to read a payload. A slice is a pointer and then a length; host/bruskelde.h has the C declarations.
#![tactic(auto)]

pub mod slot;

ghost use Rattle.std.specs.Prelude.{◌≡◌};
ghost use Rattle.answers.specs.Answer.{answer_number};
ghost use Rattle.reader.specs.Reader.{answer_to};
ghost use Rattle.lent.specs.Lent.{left};
ghost use Rattle.record_row.specs.Handing.{wrote_fields};
ghost use Rattle.host.specs.Part.{part_of};

use reader::brief::brief;
use reader::verdict::number;

// The number of the answer, for any kind, size and bytes.
#[unsafe(no_mangle)]
pub extern "C" fn bruskelde_read(kind: u64, size: u64, bytes: &[u8]) -> u32
    ensures { result ≡ answer_number (answer_to kind size bytes.now) }
{
    number(kind, size, bytes)
}

// The same, and the fields of what was taken or set aside, written over the front of the row; 10 where they do not fit.
#[unsafe(no_mangle)]
pub extern "C" fn bruskelde_fields(kind: u64, size: u64, bytes: &[u8], row: &mut [u64]) -> u32
    ensures { left result row.new ≡ wrote_fields (answer_to kind size bytes.now) row.old }
{
    record_row::handing::write(kind, size, bytes, row)
}

// A part of the lent bytes, by its first byte and how many there are.
#[repr(C)]
#[derive(Clone, Copy)]
pub struct Part {
    pub offset: u64,
    pub length: u64,
}

// "the rest is handed back as that part of the caller's bytes": of a taken payload of kind 4 or 5, and nothing at 0 of any other.
#[unsafe(no_mangle)]
pub extern "C" fn bruskelde_part(kind: u64, size: u64, bytes: &[u8]) -> Part
    ensures { result ≡ part_of kind size bytes.now }
{
    match brief(kind, size, bytes).rest {
        Some(start) => Part {
            offset: start as u64,
            length: size - start as u64,
        },
        None => Part {
            offset: 0,
            length: 0,
        },
    }
}
