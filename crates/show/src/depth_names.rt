// Kind 177, depth representation information. Each of the four numbers has six of the row: sign, exponent, mantissa length less one, mantissa,
// whether it is absent (0), unspecified (1) or a number (2), and the number's 64 bits.
ghost use Rattle.std.specs.Prelude.{◌≤◌, ◌<◌};

use crate::field::{Field, Row};
use crate::fraction::{decimal, multiple, power};
use crate::style::{Depth, Style};
use print::Out;

const FIELDS: &[Field] = &[
    Field {
        depth: Depth::Always,
        name: "z_near_flag",
        means: &[
            "the nearest depth is not coded",
            "the nearest depth is coded",
        ],
    },
    Field {
        depth: Depth::Always,
        name: "z_far_flag",
        means: &[
            "the farthest depth is not coded",
            "the farthest depth is coded",
        ],
    },
    Field {
        depth: Depth::Always,
        name: "d_min_flag",
        means: &[
            "the minimum disparity is not coded",
            "the minimum disparity is coded",
        ],
    },
    Field {
        depth: Depth::Always,
        name: "d_max_flag",
        means: &[
            "the maximum disparity is not coded",
            "the maximum disparity is coded",
        ],
    },
    Field {
        depth: Depth::Always,
        name: "depth_representation_type",
        means: &[
            "samples are the inverse of the distance",
            "samples are disparity",
            "samples are the distance",
            "samples are disparity, mapped by the list",
            "reserved",
        ],
    },
    Field {
        depth: Depth::Outer,
        name: "disparity_ref_view_id",
        means: &["the view for which disparities are derived"],
    },
];

const NUMBERS: &[Field] = &[Field {
    depth: Depth::Always,
    name: "depth_nonlinear_representation_num_minus1",
    means: &["one less than the numbers that follow, two less than the mapping's linear segments"],
}];

const NODE: &[Field] = &[Field {
    depth: Depth::Always,
    name: "depth_nonlinear_representation_model",
    means: &["deviation from the straight line at this node"],
}];

// One of the four numbers: its name, and what it measures.
#[derive(Clone, Copy)]
struct Element {
    name: &'static str,
    measure: &'static str,
}

const DISTANCE: &str = "distance from the camera, its unit not specified";

const SHIFT: &str = "shift between two views, in luma sample widths";

const ELEMENTS: [Element; 4] = [
    Element {
        name: "z_near",
        measure: DISTANCE,
    },
    Element {
        name: "z_far",
        measure: DISTANCE,
    },
    Element {
        name: "d_min",
        measure: SHIFT,
    },
    Element {
        name: "d_max",
        measure: SHIFT,
    },
];

// m × 2^(e - 31 - v).
fn product(out: &mut Out, m: u64, e: u64, v: u64)
    requires { (m ≤ 8589934592) × (0 < e) × (v ≤ 32) }
{
    let whole = 31 + v;
    if whole <= e {
        multiple(out, m, e - whole);
    } else {
        decimal(out, m, power(whole - e));
    }
}

// The number that an exponent e and a mantissa n of v bits stand for.
fn magnitude(out: &mut Out, e: u64, v: u64, n: u64)
    requires { (v ≤ 32) × (n < 4294967296) }
{
    if e == 0 {
        product(out, n, 1, v);
    } else {
        product(out, power(v) + n, e, v);
    }
}

// The number in decimal; only a negative one has the highest of its 64 bits set.
fn specified(out: &mut Out, coded: Row<'_>) {
    if 9223372036854775808 <= coded.at(5) {
        out.text("-");
    }
    magnitude(
        out,
        coded.at(1),
        coded.at(2) % 32 + 1,
        coded.at(3) % 4294967296,
    );
}

// The number, if it is one, and its bits.
fn value(out: &mut Out, coded: Row<'_>, name: &str) {
    if coded.at(4) == 1 {
        out.text("unspecified");
    } else {
        specified(out, coded);
        out.text(" ");
        out.text(name);
        out.text("_bits=");
        out.bits(coded.at(5));
    }
}

// The parts of what codes it, by their names in depth_rep_info_element.
const PARTS: [&str; 4] = [
    "da_sign_flag",
    "da_exponent",
    "da_mantissa_len_minus1",
    "da_mantissa",
];

fn parts(out: &mut Out, coded: Row<'_>, name: &str) {
    for (part, n) in PARTS.iter().zip(coded.numbers) {
        out.text(" ");
        out.text(name);
        out.text(".");
        out.text(part);
        out.text("=");
        out.number(*n);
    }
}

// One of the four numbers, by whether it is there, its six of the row, and, where it is explained, what it measures.
fn shown(out: &mut Out, there: bool, coded: Row<'_>, element: Element) {
    if coded.style.depth(there, false) < Depth::Outer {
        return;
    }
    coded.style.apart(out);
    out.text(element.name);
    out.text("=");
    if !there {
        out.text("absent");
        return;
    }
    value(out, coded, element.name);
    parts(out, coded, element.name);
    if coded.style == Style::Explained {
        out.text(": ");
        out.text(element.measure);
    }
}

// The list of type 3, which stands in the row from here on, and which H.274 counts from 1.
const LIST: usize = 32;

// One less than how many there are, and the numbers; where there are none, nothing.
fn list(out: &mut Out, row: Row<'_>, count: u64) {
    let Some(less) = count.checked_sub(1) else {
        return;
    };
    let one_less = Row {
        style: row.style,
        numbers: &[less],
    };
    one_less.fields(out, Depth::Always, NUMBERS);
    for (index, numbers) in (1..=count).zip(row.from(LIST).numbers.chunks(1)) {
        let node = Row {
            style: row.style,
            numbers,
        };
        node.indexed(out, index, NODE);
    }
}

// The reference view is there where a disparity is.
fn viewed(d_min_flag: u64, d_max_flag: u64) -> bool {
    d_min_flag == 1 || d_max_flag == 1
}

pub(crate) fn depth_information(out: &mut Out, row: Row<'_>) {
    let depth = row.style.depth(viewed(row.at(3), row.at(4)), false);
    row.from(1).fields(out, depth, FIELDS);
    for (i, element) in ELEMENTS.iter().enumerate() {
        shown(out, row.at(i + 1) == 1, row.from(6 * i + 7), *element);
    }
    list(out, row, row.at(31));
}
