// A rotation in degrees: "three 64-bit floats, each exactly the coded number over 65,536".
ghost use Rattle.std.specs.Prelude.{◌≡◌};
ghost use Rattle.std.specs.Float.{binary64};
ghost use Rattle.std.specs.Float.Ieee.{of_bits};
ghost use Rattle.numbers.specs.Degrees.{degree_bits, degrees_of, no_degrees};

// The rotation in degrees.
#[repr(C)]
#[derive(Clone, Copy, Default)]
pub struct Degrees {
    pub yaw: f64,
    pub pitch: f64,
    pub roll: f64,
}

impl Degrees {
    // The degrees of the three coded numbers.
    pub fn of(yaw: i32, pitch: i32, roll: i32) -> Degrees
        ensures { result ≡ degrees_of yaw pitch roll }
    {
        Degrees {
            yaw: degree(yaw),
            pitch: degree(pitch),
            roll: degree(roll),
        }
    }

    // All three positive zero: what a record has that carries no rotation.
    pub fn zero() -> Degrees
        ensures { result ≡ no_degrees }
    {
        Degrees::default()
    }
}

// A coded number over 65,536. The cast and the quotient round nothing: a float holds 53 binary digits, and c has at most 32.
#[tactic(auto, using(crate::proofs::DegreeLaws::degrees))]
fn degree(c: i32) -> f64
    ensures { result ≡ of_bits binary64 (degree_bits c) }
{
    (c as f64) / 65536.0
}

// The 64 bits of that float, for a caller that takes integers.
#[tactic(auto, using(crate::proofs::DegreeLaws::degrees))]
pub fn degree_bits(c: i32) -> u64
    ensures { result ≡ degree_bits c }
{
    f64::to_bits(degree(c))
}
