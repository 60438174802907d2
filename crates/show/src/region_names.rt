// Kind 155, region-wise packing. A region has 19 numbers of the row, the first region's from 9 on.
ghost use Rattle.std.specs.Prelude.{◌<◌};

use crate::field::{CANCELS, Field, PACKED, PERSISTS, PROJECTED, Row};
use crate::guard::{code, meaning, reserved};
use crate::style::{Depth, Style};
use print::Out;

const FIELDS: &[Field] = &[
    Field {
        depth: Depth::Always,
        name: "rwp_cancel_flag",
        means: CANCELS,
    },
    Field {
        depth: Depth::Outer,
        name: "rwp_persistence_flag",
        means: PERSISTS,
    },
    Field {
        depth: Depth::Outer,
        name: "rwp_constituent_picture_matching_flag",
        means: &[
            "the regions hold for the whole picture",
            "the regions hold for each of the two frames of kind 45",
        ],
    },
    Field {
        depth: Depth::Outer,
        name: "rwp_num_packed_regions",
        means: &[
            "each below as width x height at left,top; rotations are anticlockwise, mirroring is horizontal and comes after",
        ],
    },
    Field {
        depth: Depth::Outer,
        name: "rwp_proj_picture_width",
        means: PROJECTED,
    },
    Field {
        depth: Depth::Outer,
        name: "rwp_proj_picture_height",
        means: PROJECTED,
    },
    Field {
        depth: Depth::Outer,
        name: "rwp_packed_picture_width",
        means: PACKED,
    },
    Field {
        depth: Depth::Outer,
        name: "rwp_packed_picture_height",
        means: PACKED,
    },
];

const REGION: &[Field] = &[
    Field {
        depth: Depth::Always,
        name: "rwp_transform_type",
        means: &[],
    },
    Field {
        depth: Depth::Always,
        name: "rwp_guard_band_flag",
        means: &[],
    },
    Field {
        depth: Depth::Always,
        name: "rwp_proj_region_width",
        means: &[],
    },
    Field {
        depth: Depth::Always,
        name: "rwp_proj_region_height",
        means: &[],
    },
    Field {
        depth: Depth::Always,
        name: "rwp_proj_region_top",
        means: &[],
    },
    Field {
        depth: Depth::Always,
        name: "rwp_proj_region_left",
        means: &[],
    },
    Field {
        depth: Depth::Always,
        name: "rwp_packed_region_width",
        means: &[],
    },
    Field {
        depth: Depth::Always,
        name: "rwp_packed_region_height",
        means: &[],
    },
    Field {
        depth: Depth::Always,
        name: "rwp_packed_region_top",
        means: &[],
    },
    Field {
        depth: Depth::Always,
        name: "rwp_packed_region_left",
        means: &[],
    },
    Field {
        depth: Depth::Always,
        name: "rwp_left_guard_band_width",
        means: &[],
    },
    Field {
        depth: Depth::Always,
        name: "rwp_right_guard_band_width",
        means: &[],
    },
    Field {
        depth: Depth::Always,
        name: "rwp_top_guard_band_height",
        means: &[],
    },
    Field {
        depth: Depth::Always,
        name: "rwp_bottom_guard_band_height",
        means: &[],
    },
    Field {
        depth: Depth::Always,
        name: "rwp_guard_band_not_used_for_pred_flag",
        means: &[],
    },
];

// A region: its index, its numbers, and the payload's bytes from its first on.
#[derive(Clone, Copy)]
struct Region<'a> {
    index: u64,
    row: Row<'a>,
    bytes: &'a [u8],
}

fn transform(n: u64) -> &'static str {
    match n {
        0 => ", no transform",
        1 => ", mirror",
        2 => ", rotate 180",
        3 => ", rotate 180 and mirror",
        4 => ", rotate 90 and mirror",
        5 => ", rotate 90",
        6 => ", rotate 270 and mirror",
        _ => ", rotate 270",
    }
}

// What an edge's guard band in words begins with.
const EDGES: [&str; 4] = [
    "\n    guard bands: left ",
    ", right ",
    ", top ",
    ", bottom ",
];

// Width and height, and left and top, which the row has the other way round.
fn extent(out: &mut Out, row: Row<'_>) {
    out.number(row.at(0));
    out.text("x");
    out.number(row.at(1));
    out.text(" at ");
    out.number(row.at(3));
    out.text(",");
    out.number(row.at(2));
}

impl Region<'_> {
    fn has_guards(self) -> bool {
        self.row.at(1) == 1
    }

    fn type_name(self, out: &mut Out, edge: usize) {
        out.text(" rwp_guard_band_type[");
        out.number(self.index);
        out.text("][");
        out.number(edge as u64);
    }

    // An edge's type as a field, and how it is coded where that is reserved.
    fn edge_type(self, out: &mut Out, edge: usize, n: u64, code: Option<u64>) {
        self.type_name(out, edge);
        out.text("]=");
        out.number(n);
        if let Some(code) = reserved(code) {
            self.type_name(out, edge);
            out.text("]_coded=");
            out.number(code);
        }
    }

    // How an edge's type n is coded, where the region has guard bands.
    fn edge_code(self, edge: usize, n: u64) -> Option<u64>
        requires { edge < 4 }
    {
        if !self.has_guards() {
            return Some(n);
        }
        let coded = self.bytes.get(29..).unwrap_or(&[]);
        code(n, coded, 12 - 3 * (edge as u64))
    }

    // The guard band at an edge: 0 is left, 1 right, 2 top, 3 bottom.
    fn guard(self, out: &mut Out, edge: usize)
        requires { edge < 4 }
    {
        let n = self.row.at(15 + edge);
        let code = self.edge_code(edge, n);
        match self.row.style {
            Style::Line => self.edge_type(out, edge, n, code),
            Style::Explained => {
                out.text(EDGES[edge]);
                out.number(self.row.at(10 + edge));
                out.text(" (type ");
                out.number(n);
                out.text(": ");
                out.text(meaning(code));
                out.text(")");
            }
        }
    }

    fn guards(self, out: &mut Out) {
        for edge in 0..4 {
            self.guard(out, edge);
        }
    }

    // Its fields, on a line of their own.
    fn listed(self, out: &mut Out) {
        out.text("\n   ");
        self.row.indexed(out, self.index, REGION);
        self.guards(out);
    }

    // The region as an engineer would write it.
    fn written(self, out: &mut Out) {
        out.text("\n  region ");
        out.number(self.index);
        out.text(": packed ");
        extent(out, self.row.from(6));
        out.text(" -> projected ");
        extent(out, self.row.from(2));
        out.text(transform(self.row.at(0)));
        if self.has_guards() {
            self.guards(out);
            out.piece(
                &[
                    "; pictures may be predicted from them",
                    "; no picture is predicted from them",
                ],
                self.row.at(14),
            );
        }
    }

    // How many bytes it has.
    fn size(self) -> usize {
        if self.has_guards() { 31 } else { 25 }
    }
}

// Where the first region stands in the row and in the payload, and how many numbers each has.
const FIRST: usize = 9;

const FIRST_BYTE: usize = 14;

const WIDTH: usize = 19;

fn regions(out: &mut Out, row: Row<'_>, payload: &[u8], count: u64) {
    let mut bytes = payload.get(FIRST_BYTE..).unwrap_or(&[]);
    for (index, numbers) in (0..count).zip(row.from(FIRST).numbers.chunks(WIDTH)) {
        let region = Region {
            index,
            row: Row {
                style: row.style,
                numbers,
            },
            bytes,
        };
        match row.style {
            Style::Line => region.listed(out),
            Style::Explained => region.written(out),
        }
        bytes = bytes.get(region.size()..).unwrap_or(&[]);
    }
}

pub(crate) fn region_wise(out: &mut Out, row: Row<'_>, payload: &[u8]) {
    row.from(1).fields(out, row.uncancelled(1), FIELDS);
    regions(out, row, payload, row.at(4));
}
