// Kind 154, sphere rotation: its record and its reader.
#![tactic(auto)]

ghost use Rattle.std.specs.Prelude.{◌≡◌};
ghost use Rattle.bits.specs.Answers.{out_of};
ghost use Rattle.bits.specs.Bits.{Payload};
ghost use Rattle.format.specs.Format.{zeros};
ghost use Rattle.format.specs.Reading.{run_at};
ghost use Rattle.kind_rotation.specs.Rotation.{table, rotation};

use crate::angle::angle;
use bits::cursor::Cursor;
use bits::element::u;
use bits::read::Reading;
use numbers::degrees::Degrees;

mod angle;

// Yaw and roll, in units of 1 / 65,536 of a degree: from -180 degrees to just below 180.
const TURN_LEAST: i32 = -11_796_480;

const TURN_MOST: i32 = 11_796_479;

// Pitch: from -90 degrees to 90.
const PITCH_LEAST: i32 = -5_898_240;

const PITCH_MOST: i32 = 5_898_240;

#[repr(C)]
#[derive(Clone, Copy, Default)]
pub struct Rotation {
    pub sphere_rotation_cancel_flag: u8,
    pub sphere_rotation_persistence_flag: u8,
    pub yaw_rotation: i32,
    pub pitch_rotation: i32,
    pub roll_rotation: i32,
    // The rotation in degrees: RULES 4.154.
    pub degrees: Degrees,
}

impl Rotation {
    // The record of zeros.
    #[tactic(auto, using(crate::proofs::Steps::steps))]
    pub fn zero() -> Rotation
        ensures { result ≡ zeros table }
    {
        Rotation::default()
    }
}

#[tactic(auto, using(crate::proofs::Steps::steps), unfolding(crate::specs::Rotation::rotation))]
pub fn read(s: &[u8], c: Cursor) -> Reading<Rotation>
    requires { Payload s.now }
    ensures { out_of result ≡ run_at rotation s.now c.at }
{
    let (sphere_rotation_cancel_flag, c) = u(s, c, 1)?;
    if sphere_rotation_cancel_flag != 0 {
        let cancelled = Rotation {
            sphere_rotation_cancel_flag,
            ..Rotation::default()
        };
        return Ok((cancelled, c));
    }
    let (sphere_rotation_persistence_flag, c) = u(s, c, 1)?;
    // sphere_rotation_reserved_zero_6bits
    let (_, c) = u::<u8>(s, c, 6)?;
    let (yaw_rotation, c) = angle(s, c, TURN_LEAST, TURN_MOST)?;
    let (pitch_rotation, c) = angle(s, c, PITCH_LEAST, PITCH_MOST)?;
    let (roll_rotation, c) = angle(s, c, TURN_LEAST, TURN_MOST)?;
    let rotation = Rotation {
        sphere_rotation_cancel_flag,
        sphere_rotation_persistence_flag,
        yaw_rotation,
        pitch_rotation,
        roll_rotation,
        degrees: Degrees::of(yaw_rotation, pitch_rotation, roll_rotation),
    };
    Ok((rotation, c))
}
