// Kind 154, sphere rotation.
ghost use Rattle.std.specs.Prelude.{◌≤◌};

use crate::field::{CANCELS, Field, PERSISTS, Row};
use crate::fraction::decimal;
use crate::style::Depth;
use print::Out;

const FIELDS: &[Field] = &[
    Field {
        depth: Depth::Always,
        name: "sphere_rotation_cancel_flag",
        means: CANCELS,
    },
    Field {
        depth: Depth::Outer,
        name: "sphere_rotation_persistence_flag",
        means: PERSISTS,
    },
];

// The sign of a number of 32 bits in two's complement.
fn minus(out: &mut Out, coded: u64) {
    if 2147483648 <= coded {
        out.text("-");
    }
}

// Its magnitude.
fn magnitude(coded: u64) -> u64
    ensures { result ≤ 4294967296 }
{
    if coded < 2147483648 {
        coded
    } else {
        4294967296 - coded % 4294967296
    }
}

// The angle with which the row begins: the coded number, the degrees that it makes, and, three places on, the 64 bits of their float.
fn angle(out: &mut Out, row: Row<'_>, name: &str) {
    let coded = row.at(0);
    let n = magnitude(coded);
    row.style.apart(out);
    out.text(name);
    out.text("_rotation=");
    minus(out, coded);
    out.number(n);
    out.text(" ");
    out.text(name);
    out.text("_degrees=");
    minus(out, coded);
    decimal(out, n, 65536);
    out.text(" ");
    out.text(name);
    out.text("_bits=");
    out.bits(row.at(3));
}

pub(crate) fn rotation(out: &mut Out, row: Row<'_>) {
    let depth = row.uncancelled(1);
    row.from(1).fields(out, depth, FIELDS);
    if Depth::Outer <= depth {
        angle(out, row.from(3), "yaw");
        angle(out, row.from(4), "pitch");
        angle(out, row.from(5), "roll");
    }
}
