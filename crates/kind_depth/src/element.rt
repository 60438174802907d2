// A depth element: its coded parts beside the number that they stand for.
ghost use Rattle.std.specs.Prelude.{◌≡◌};
ghost use Rattle.bits.specs.Answers.{out_of};
ghost use Rattle.bits.specs.Bits.{Payload};
ghost use Rattle.format.specs.Reading.{run_at};
ghost use Rattle.kind_depth.specs.Depth.{absent as absentValue, element as elementFormat, element_if};

use bits::cursor::Cursor;
use bits::element::u;
use bits::read::Reading;
use numbers::depth::{DepthNumber, depth_number};

#[derive(Clone, Copy)]
pub struct DepthValue {
    pub da_sign_flag: u8,
    pub da_exponent: u8,
    pub da_mantissa_len_minus1: u8,
    pub da_mantissa: u32,
    pub number: DepthNumber,
}

impl DepthValue {
    // What stands where there is no element.
    pub(crate) fn absent() -> DepthValue
        ensures { result ≡ absentValue }
    {
        DepthValue {
            da_sign_flag: 0,
            da_exponent: 0,
            da_mantissa_len_minus1: 0,
            da_mantissa: 0,
            number: DepthNumber::Absent,
        }
    }
}

// The mantissa is there whatever the exponent.
#[tactic(auto, using(format::proofs::Steps::reading), unfolding(crate::specs::Depth::element))]
fn read_element(s: &[u8], c: Cursor) -> Reading<DepthValue>
    requires { Payload s.now }
    ensures { out_of result ≡ run_at elementFormat s.now c.at }
{
    let (da_sign_flag, c) = u(s, c, 1)?;
    let (da_exponent, c) = u(s, c, 7)?;
    let (da_mantissa_len_minus1, c) = u(s, c, 5)?;
    let (da_mantissa, c) = u(s, c, da_mantissa_len_minus1 as u32 + 1)?;
    let value = DepthValue {
        da_sign_flag,
        da_exponent,
        da_mantissa_len_minus1,
        da_mantissa,
        number: depth_number(
            da_sign_flag,
            da_exponent,
            da_mantissa_len_minus1,
            da_mantissa,
        ),
    };
    Ok((value, c))
}

// The element where its flag is 1.
#[tactic(auto, using(format::proofs::Steps::reading))]
pub(crate) fn read_element_if(s: &[u8], c: Cursor, flag: u8) -> Reading<DepthValue>
    requires { Payload s.now }
    ensures { out_of result ≡ run_at (element_if flag) s.now c.at }
{
    if flag == 1 {
        read_element(s, c)
    } else {
        Ok((DepthValue::absent(), c))
    }
}
