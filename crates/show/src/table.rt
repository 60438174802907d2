// The rows of a region table, by the names of 8.15.5.2.
use crate::field::{Field, Row};
use crate::style::{Depth, Style};
use print::Out;

const FIELDS: &[Field] = &[
    Field {
        depth: Depth::Always,
        name: "ProjRegionLeft",
        means: &[],
    },
    Field {
        depth: Depth::Always,
        name: "ProjRegionTop",
        means: &[],
    },
    Field {
        depth: Depth::Always,
        name: "ProjRegionWidth",
        means: &[],
    },
    Field {
        depth: Depth::Always,
        name: "ProjRegionHeight",
        means: &[],
    },
    Field {
        depth: Depth::Always,
        name: "PackedRegionLeft",
        means: &[],
    },
    Field {
        depth: Depth::Always,
        name: "PackedRegionTop",
        means: &[],
    },
    Field {
        depth: Depth::Always,
        name: "PackedRegionWidth",
        means: &[],
    },
    Field {
        depth: Depth::Always,
        name: "PackedRegionHeight",
        means: &[],
    },
    Field {
        depth: Depth::Always,
        name: "TransformType",
        means: &[],
    },
];

// How many numbers a row has.
const WIDTH: usize = 9;

// As many rows as count says, each on a line of its own.
pub fn table(out: &mut Out, rows: &[u64], count: u32) {
    for (i, numbers) in (0..u64::from(count)).zip(rows.chunks(WIDTH)) {
        let row = Row {
            style: Style::Line,
            numbers,
        };
        out.text("\n  row=");
        out.number(i);
        row.fields(out, Depth::Always, FIELDS);
    }
}
