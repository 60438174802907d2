// Kind 47, display orientation: its record and its reader.
#![tactic(auto)]

ghost use Rattle.std.specs.Prelude.{◌≡◌};
ghost use Rattle.bits.specs.Answers.{out_of};
ghost use Rattle.bits.specs.Bits.{Payload};
ghost use Rattle.format.specs.Format.{zeros};
ghost use Rattle.format.specs.Reading.{run_at};
ghost use Rattle.kind_orientation.specs.Orientation.{table, orientation};

use bits::cursor::Cursor;
use bits::element::u;
use bits::read::Reading;

#[repr(C)]
#[derive(Clone, Copy, Default)]
pub struct Orientation {
    pub display_orientation_cancel_flag: u8,
    pub display_orientation_persistence_flag: u8,
    pub display_orientation_transform_type: u8,
}

impl Orientation {
    // The record of zeros.
    pub fn zero() -> Orientation
        ensures { result ≡ zeros table }
    {
        Orientation::default()
    }
}

#[tactic(auto, using(format::proofs::Steps::reading), unfolding(crate::specs::Orientation::orientation))]
pub fn read(s: &[u8], c: Cursor) -> Reading<Orientation>
    requires { Payload s.now }
    ensures { out_of result ≡ run_at orientation s.now c.at }
{
    let (display_orientation_cancel_flag, c) = u(s, c, 1)?;
    if display_orientation_cancel_flag != 0 {
        let cancelled = Orientation {
            display_orientation_cancel_flag,
            ..Orientation::default()
        };
        return Ok((cancelled, c));
    }
    let (display_orientation_persistence_flag, c) = u(s, c, 1)?;
    let (display_orientation_transform_type, c) = u(s, c, 3)?;
    // display_orientation_reserved_zero_3bits
    let (_, c) = u::<u8>(s, c, 3)?;
    let orientation = Orientation {
        display_orientation_cancel_flag,
        display_orientation_persistence_flag,
        display_orientation_transform_type,
    };
    Ok((orientation, c))
}
