// Kinds 4 and 5, user data: the head, and what follows it.
use crate::field::{Field, Row};
use crate::style::{Depth, Style};
use print::Out;
use std::array;

const REGISTERED: &[Field] = &[
    Field {
        depth: Depth::Always,
        name: "itu_t_t35_country_code",
        means: &[],
    },
    Field {
        depth: Depth::Outer,
        name: "itu_t_t35_country_code_extension_byte",
        means: &[],
    },
];

// In hex and, where it is explained, as text.
fn rest(out: &mut Out, style: Style, name: &str, part: &[u8]) {
    style.apart(out);
    out.text(name);
    out.text("=");
    out.bytes(part);
    if style == Style::Explained {
        out.text(": as text '");
        out.printable(part);
        out.text("'");
    }
}

pub(crate) fn registered(out: &mut Out, row: Row<'_>, part: &[u8]) {
    let depth = row.style.depth(row.at(1) == 255, true);
    row.from(1).fields(out, depth, REGISTERED);
    rest(out, row.style, "itu_t_t35_payload_byte", part);
}

// The identifier: a number of the row for each of its bytes, from 1 on.
fn identifier(row: Row<'_>) -> [u8; 16] {
    array::from_fn(|i| (row.at(i + 1) % 256) as u8)
}

pub(crate) fn unregistered(out: &mut Out, row: Row<'_>, part: &[u8]) {
    row.style.apart(out);
    out.text("uuid_iso_iec_11578=");
    out.bytes(&identifier(row));
    rest(out, row.style, "user_data_payload_byte", part);
}
