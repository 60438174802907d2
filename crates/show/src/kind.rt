// The kinds: their numbers and names, what shows the row of each, and where to look when one is refused.
use crate::depth_names::depth_information;
use crate::field::Row;
use crate::names::{alpha, equirectangular, frame_packing, orientation};
use crate::region_names::region_wise;
use crate::rotation_names::rotation;
use crate::user_names::{registered, unregistered};
use print::Out;

#[derive(Clone, Copy)]
struct Kind {
    number: u64,
    name: &'static str,
}

// In rising order.
const KINDS: &[Kind] = &[
    Kind {
        number: 4,
        name: "user data registered by T.35",
    },
    Kind {
        number: 5,
        name: "user data unregistered",
    },
    Kind {
        number: 45,
        name: "frame packing arrangement",
    },
    Kind {
        number: 47,
        name: "display orientation",
    },
    Kind {
        number: 150,
        name: "equirectangular projection",
    },
    Kind {
        number: 154,
        name: "sphere rotation",
    },
    Kind {
        number: 155,
        name: "region-wise packing",
    },
    Kind {
        number: 165,
        name: "alpha channel information",
    },
    Kind {
        number: 177,
        name: "depth representation information",
    },
];

// What is shown of a payload beside the numbers of its record: its bytes, which say how guard band types are coded; what follows the head of kinds
// 4 and 5; and whether a message of kind 45 is set aside.
#[derive(Clone, Copy)]
pub(crate) struct Beside<'a> {
    pub payload: &'a [u8],
    pub part: &'a [u8],
    pub aside: bool,
}

// The row of a kind.
pub(crate) fn record(out: &mut Out, kind: u64, row: Row<'_>, beside: Beside<'_>) {
    match kind {
        4 => registered(out, row, beside.part),
        5 => unregistered(out, row, beside.part),
        45 => frame_packing(out, row, beside.aside),
        47 => orientation(out, row),
        150 => equirectangular(out, row, beside.payload),
        154 => rotation(out, row),
        155 => region_wise(out, row, beside.payload),
        165 => alpha(out, row),
        177 => depth_information(out, row),
        _ => {}
    }
}

// Where to look when a rule of the kind is broken; a kind that has no rule has no text.
pub(crate) fn rule_hint(kind: u64) -> &'static str {
    match kind {
        154 => "yaw and roll go from -180 to below 180 degrees, pitch from -90 to 90.",
        155 => {
            "regions and picture sizes are at least 1; a guard band type 0 needs rwp_guard_band_not_used_for_pred_flag=1."
        }
        177 => {
            "depth_representation_type is at most 15, depth_nonlinear_representation_num_minus1 at most 62, a listed number at most 65535."
        }
        _ => "",
    }
}

pub(crate) fn name(kind: u64) -> &'static str {
    KINDS
        .iter()
        .find(|known| known.number == kind)
        .map_or("none of the kinds that are read", |known| known.name)
}

// Where to look when a kind is none of these.
pub(crate) fn number_hint(out: &mut Out) {
    out.text("the kind number (payloadType): ");
    for (i, kind) in KINDS.iter().enumerate() {
        if i == 0 {} else if i + 1 < KINDS.len() {
            out.text(", ");
        } else {
            out.text(" or ");
        }
        out.number(kind.number);
    }
    out.text(".");
}

// All kinds by number and name, one a line.
pub fn list(out: &mut Out) {
    for kind in KINDS {
        out.text("  ");
        out.number(kind.number);
        out.text(" ");
        out.text(kind.name);
        out.text("\n");
    }
}
