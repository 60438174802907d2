// Kind 165, alpha channel information: its record and its reader.
#![tactic(auto)]

ghost use Rattle.std.specs.Prelude.{◌≡◌};
ghost use Rattle.bits.specs.Answers.{out_of};
ghost use Rattle.bits.specs.Bits.{Payload};
ghost use Rattle.format.specs.Format.{zeros};
ghost use Rattle.format.specs.Reading.{run_at};
ghost use Rattle.kind_alpha.specs.Alpha.{table, alpha};

use bits::cursor::Cursor;
use bits::element::u;
use bits::read::Reading;

#[derive(Clone, Copy, Default)]
pub struct Alpha {
    pub alpha_channel_cancel_flag: u8,
    pub alpha_channel_use_idc: u8,
    pub alpha_channel_bit_depth_minus8: u8,
    pub alpha_transparent_value: u16,
    pub alpha_opaque_value: u16,
    pub alpha_channel_incr_flag: u8,
    pub alpha_channel_clip_flag: u8,
    pub alpha_channel_clip_type_flag: u8,
}

impl Alpha {
    // The record of zeros.
    pub fn zero() -> Alpha
        ensures { result ≡ zeros table }
    {
        Alpha::default()
    }
}

#[tactic(auto, using(format::proofs::Steps::reading), unfolding(crate::specs::Alpha::alpha))]
pub fn read(s: &[u8], c: Cursor) -> Reading<Alpha>
    requires { Payload s.now }
    ensures { out_of result ≡ run_at alpha s.now c.at }
{
    let (alpha_channel_cancel_flag, c) = u(s, c, 1)?;
    if alpha_channel_cancel_flag != 0 {
        let cancelled = Alpha {
            alpha_channel_cancel_flag,
            ..Alpha::default()
        };
        return Ok((cancelled, c));
    }
    let (alpha_channel_use_idc, c) = u(s, c, 3)?;
    let (alpha_channel_bit_depth_minus8, c) = u(s, c, 3)?;
    let width = alpha_channel_bit_depth_minus8 as u32 + 9;
    let (alpha_transparent_value, c) = u(s, c, width)?;
    let (alpha_opaque_value, c) = u(s, c, width)?;
    let (alpha_channel_incr_flag, c) = u(s, c, 1)?;
    let (alpha_channel_clip_flag, c) = u(s, c, 1)?;
    let (alpha_channel_clip_type_flag, c) = if alpha_channel_clip_flag == 1 {
        u(s, c, 1)?
    } else {
        (0, c)
    };
    let alpha = Alpha {
        alpha_channel_cancel_flag,
        alpha_channel_use_idc,
        alpha_channel_bit_depth_minus8,
        alpha_transparent_value,
        alpha_opaque_value,
        alpha_channel_incr_flag,
        alpha_channel_clip_flag,
        alpha_channel_clip_type_flag,
    };
    Ok((alpha, c))
}
