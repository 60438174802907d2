// Held records, and what a reader answers: its number and, unless it is a refusal, the fields of the record.
use crate::emulation::emulation;
use crate::field::{Field, Row};
use crate::kind;
use crate::kind::Beside;
use crate::number::{hint, read, sentence};
use crate::style::{Depth, Style};
use print::Out;

// A kind by number and name, on a line of its own.
fn named(out: &mut Out, kind: u64) {
    out.text("\n  kind ");
    out.number(kind);
    out.text(": ");
    out.text(kind::name(kind));
}

// A held record, explained. The payload that it came from is gone.
pub fn held(out: &mut Out, kind: u64, row: &[u64]) {
    named(out, kind);
    let row = Row {
        style: Style::Explained,
        numbers: row,
    };
    let beside = Beside {
        payload: b"",
        part: b"",
        aside: false,
    };
    kind::record(out, kind, row, beside);
}

const EXTENSION: &[Field] = &[Field {
    depth: Depth::Always,
    name: "extension",
    means: &[
        "no extension bits; at most the bits that close the payload follow the message",
        "bits between the message and those that close the payload, as newer firmware may add; they are not used",
    ],
}];

// A payload that was read: its kind and its stated size, and the number that it is answered.
#[derive(Clone, Copy)]
pub struct Asked {
    pub kind: u64,
    pub size: u64,
    pub number: u32,
}

// The kind, what the number means, and where to look.
fn introduce(out: &mut Out, asked: Asked, payload: &[u8]) {
    let n = asked.number;
    named(out, asked.kind);
    out.text(", size ");
    out.number(asked.size);
    out.text("\n  ");
    sentence(out, n);
    if n != 0 {
        out.text("\n  Look at: ");
        hint(out, n, asked.kind);
        emulation(out, n, payload);
    }
}

// The number and, unless it is a refusal, the extension's length and the fields.
pub fn answer(out: &mut Out, style: Style, asked: Asked, row: &[u64], payload: &[u8], part: &[u8]) {
    let n = asked.number;
    read(out, n);
    if style == Style::Explained {
        introduce(out, asked, payload);
    }
    if matches!(n, 0 | 20) {
        let row = Row {
            style,
            numbers: row,
        };
        let beside = Beside {
            payload,
            part,
            aside: n == 20,
        };
        row.fields(out, Depth::Always, EXTENSION);
        kind::record(out, asked.kind, row, beside);
    }
    out.text("\n");
}
