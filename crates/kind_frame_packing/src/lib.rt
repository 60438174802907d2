// Kind 45, frame packing arrangement: its record and its reader.
#![tactic(auto)]

pub mod aside;
pub mod flags;
pub mod grid;
pub mod layout;

ghost use Rattle.std.specs.Prelude.{◌≡◌};
ghost use Rattle.bits.specs.Answers.{out_of};
ghost use Rattle.bits.specs.Bits.{Payload};
ghost use Rattle.format.specs.Format.{zeros};
ghost use Rattle.format.specs.Reading.{run_at};
ghost use Rattle.kind_frame_packing.specs.FramePacking.{table, frame_packing};

use crate::layout::Layout;
use bits::cursor::Cursor;
use bits::element::{u, ue};
use bits::read::Reading;

#[repr(C)]
#[derive(Clone, Copy, Default)]
pub struct FramePacking {
    pub fp_arrangement_id: u32,
    pub fp_arrangement_cancel_flag: u8,
    pub layout: Layout,
    pub fp_upsampled_aspect_ratio_flag: u8,
}

impl FramePacking {
    // The record of zeros.
    pub fn zero() -> FramePacking
        ensures { result ≡ zeros table }
    {
        FramePacking::default()
    }
}

#[tactic(auto, using(format::proofs::Steps::reading), unfolding(crate::specs::FramePacking::frame_packing))]
pub fn read(s: &[u8], c: Cursor) -> Reading<FramePacking>
    requires { Payload s.now }
    ensures { out_of result ≡ run_at frame_packing s.now c.at }
{
    let (fp_arrangement_id, c) = ue(s, c)?;
    let (fp_arrangement_cancel_flag, c) = u(s, c, 1)?;
    let (layout, c) = if fp_arrangement_cancel_flag == 0 {
        Layout::read(s, c)?
    } else {
        (Layout::default(), c)
    };
    // The upsampled flag is there, cancelled or not.
    let (fp_upsampled_aspect_ratio_flag, c) = u(s, c, 1)?;
    let frame_packing = FramePacking {
        fp_arrangement_id,
        fp_arrangement_cancel_flag,
        layout,
        fp_upsampled_aspect_ratio_flag,
    };
    Ok((frame_packing, c))
}
