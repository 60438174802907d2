// Kinds 45, 47, 150 and 165: their fields, and what the values mean.
use crate::field::{CANCELS, Field, PERSISTS, Row};
use crate::guard::{code, meaning, reserved};
use crate::style::{Depth, Style};
use print::Out;

const ARRANGEMENT_ID: &[Field] = &[Field {
    depth: Depth::Always,
    name: "fp_arrangement_id",
    means: &[],
}];

const ARRANGEMENT_CANCEL: &[Field] = &[Field {
    depth: Depth::Always,
    name: "fp_arrangement_cancel_flag",
    means: CANCELS,
}];

// A message that is set aside changes no slot, a cancel neither.
const ASIDE_CANCEL: &[Field] = &[Field {
    depth: Depth::Always,
    name: "fp_arrangement_cancel_flag",
    means: &[
        "fields follow",
        "ends nothing, since the message is set aside",
    ],
}];

// What follows the cancel flag.
const ARRANGEMENT: &[Field] = &[
    Field {
        depth: Depth::Outer,
        name: "fp_arrangement_type",
        means: &[
            "reserved",
            "reserved",
            "reserved",
            "side by side",
            "top and bottom",
            "the two frames alternate in time",
            "reserved",
        ],
    },
    Field {
        depth: Depth::Outer,
        name: "fp_quincunx_sampling_flag",
        means: &["not quincunx sampled", "quincunx sampled"],
    },
    Field {
        depth: Depth::Outer,
        name: "fp_content_interpretation_type",
        means: &[
            "which view is which is not said",
            "frame 0 is the left view",
            "frame 0 is the right view",
            "reserved",
        ],
    },
    Field {
        depth: Depth::Outer,
        name: "fp_spatial_flipping_flag",
        means: &[
            "no frame is flipped",
            "if side by side, one frame is flipped sideways; if top and bottom, upside down; under other types to be ignored",
        ],
    },
    Field {
        depth: Depth::Outer,
        name: "fp_frame0_flipped_flag",
        means: &[
            "if one is flipped, it is frame 1",
            "if one is flipped, it is frame 0",
        ],
    },
    Field {
        depth: Depth::Outer,
        name: "fp_field_views_flag",
        means: &["as it must be", "reserved, to be ignored"],
    },
    Field {
        depth: Depth::Outer,
        name: "fp_current_frame_is_frame0_flag",
        means: &[
            "if they alternate, this picture is frame 1",
            "if they alternate, this picture is frame 0",
        ],
    },
    Field {
        depth: Depth::Outer,
        name: "fp_frame0_self_contained_flag",
        means: &[
            "frame 0 may be predicted from frame 1",
            "frame 0 is never predicted from frame 1",
        ],
    },
    Field {
        depth: Depth::Outer,
        name: "fp_frame1_self_contained_flag",
        means: &[
            "frame 1 may be predicted from frame 0",
            "frame 1 is never predicted from frame 0",
        ],
    },
    Field {
        depth: Depth::Inner,
        name: "fp_frame0_grid_position_x",
        means: &["sixteenths of a sample"],
    },
    Field {
        depth: Depth::Inner,
        name: "fp_frame0_grid_position_y",
        means: &["sixteenths of a sample; x and y both 0: the default place; both 15: unknown"],
    },
    Field {
        depth: Depth::Inner,
        name: "fp_frame1_grid_position_x",
        means: &["sixteenths of a sample"],
    },
    Field {
        depth: Depth::Inner,
        name: "fp_frame1_grid_position_y",
        means: &["sixteenths of a sample; x and y both 0: the default place; both 15: unknown"],
    },
    Field {
        depth: Depth::Outer,
        name: "fp_arrangement_persistence_flag",
        means: PERSISTS,
    },
    Field {
        depth: Depth::Always,
        name: "fp_upsampled_aspect_ratio_flag",
        means: &[
            "the sample aspect ratio is that before upconversion",
            "the sample aspect ratio is that after upconversion",
        ],
    },
];

// The grid stands there unless the frames are quincunx sampled or alternate in time.
fn placed(quincunx: u64, arrangement: u64) -> bool {
    quincunx == 0 && arrangement != 5
}

pub(crate) fn frame_packing(out: &mut Out, row: Row<'_>, aside: bool) {
    let depth = row
        .style
        .depth(row.at(2) == 0, placed(row.at(4), row.at(3)));
    let cancel = if aside {
        ASIDE_CANCEL
    } else {
        ARRANGEMENT_CANCEL
    };
    row.from(1).fields(out, depth, ARRANGEMENT_ID);
    row.from(2).fields(out, depth, cancel);
    row.from(3).fields(out, depth, ARRANGEMENT);
}

const ORIENTATION: &[Field] = &[
    Field {
        depth: Depth::Always,
        name: "display_orientation_cancel_flag",
        means: CANCELS,
    },
    Field {
        depth: Depth::Outer,
        name: "display_orientation_persistence_flag",
        means: PERSISTS,
    },
    Field {
        depth: Depth::Outer,
        name: "display_orientation_transform_type",
        means: &[
            "no transform",
            "mirrored horizontally",
            "rotated by 180 degrees anticlockwise",
            "rotated by 180 degrees anticlockwise, then mirrored horizontally",
            "rotated by 90 degrees anticlockwise, then mirrored horizontally",
            "rotated by 90 degrees anticlockwise",
            "rotated by 270 degrees anticlockwise, then mirrored horizontally",
            "rotated by 270 degrees anticlockwise",
        ],
    },
];

pub(crate) fn orientation(out: &mut Out, row: Row<'_>) {
    row.from(1).fields(out, row.uncancelled(1), ORIENTATION);
}

const EQUIRECTANGULAR: &[Field] = &[
    Field {
        depth: Depth::Always,
        name: "erp_cancel_flag",
        means: CANCELS,
    },
    Field {
        depth: Depth::Outer,
        name: "erp_persistence_flag",
        means: PERSISTS,
    },
    Field {
        depth: Depth::Outer,
        name: "erp_guard_band_flag",
        means: &["no guard bands", "guard bands"],
    },
];

const GUARD_WIDTHS: &[Field] = &[
    Field {
        depth: Depth::Inner,
        name: "erp_left_guard_band_width",
        means: &["luma samples"],
    },
    Field {
        depth: Depth::Inner,
        name: "erp_right_guard_band_width",
        means: &["luma samples"],
    },
];

// A guard band type that is there has its three bits at the end of the first byte.
fn guard_code(row: Row<'_>, payload: &[u8]) -> Option<u64> {
    let n = row.at(4);
    if row.at(3) == 1 {
        code(n, payload, 8)
    } else {
        Some(n)
    }
}

// The type, and how it is coded where that is reserved.
fn guard_type(out: &mut Out, style: Style, n: u64, code: Option<u64>) {
    style.apart(out);
    out.text("erp_guard_band_type=");
    out.number(n);
    match style {
        Style::Line => {
            if let Some(code) = reserved(code) {
                out.text(" erp_guard_band_type_coded=");
                out.number(code);
            }
        }
        Style::Explained => {
            out.text(": ");
            out.text(meaning(code));
        }
    }
}

pub(crate) fn equirectangular(out: &mut Out, row: Row<'_>, payload: &[u8]) {
    let depth = row.uncancelled(3);
    row.from(1).fields(out, depth, EQUIRECTANGULAR);
    if depth == Depth::Inner {
        guard_type(out, row.style, row.at(4), guard_code(row, payload));
    }
    row.from(5).fields(out, depth, GUARD_WIDTHS);
}

const ALPHA: &[Field] = &[
    Field {
        depth: Depth::Always,
        name: "alpha_channel_cancel_flag",
        means: &["fields follow", "ends what was said"],
    },
    Field {
        depth: Depth::Outer,
        name: "alpha_channel_use_idc",
        means: &[
            "blending multiplies the picture by alpha",
            "the picture is multiplied already",
            "unspecified",
            "reserved",
        ],
    },
    Field {
        depth: Depth::Outer,
        name: "alpha_channel_bit_depth_minus8",
        means: &["the bit depth of a sample, less 8"],
    },
    Field {
        depth: Depth::Outer,
        name: "alpha_transparent_value",
        means: &["the sample value that is transparent"],
    },
    Field {
        depth: Depth::Outer,
        name: "alpha_opaque_value",
        means: &["the sample value that is opaque"],
    },
    Field {
        depth: Depth::Outer,
        name: "alpha_channel_incr_flag",
        means: &[
            "samples are taken as they are",
            "samples above the lower of the two values are increased by one",
        ],
    },
    Field {
        depth: Depth::Outer,
        name: "alpha_channel_clip_flag",
        means: &["samples are not clipped", "samples are clipped"],
    },
    Field {
        depth: Depth::Inner,
        name: "alpha_channel_clip_type_flag",
        means: &[
            "to the nearer of the two values",
            "to the range between the two values",
        ],
    },
];

pub(crate) fn alpha(out: &mut Out, row: Row<'_>) {
    row.from(1).fields(out, row.uncancelled(7), ALPHA);
}
