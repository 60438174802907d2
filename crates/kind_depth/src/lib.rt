// Kind 177, depth representation information: its record and its reader.
#![tactic(auto)]

pub mod element;
pub mod model;

ghost use Rattle.std.specs.Prelude.{◌≡◌};
ghost use Rattle.bits.specs.Answers.{out_of};
ghost use Rattle.bits.specs.Bits.{Payload};
ghost use Rattle.format.specs.Format.{zeros};
ghost use Rattle.format.specs.Reading.{run_at};
ghost use Rattle.kind_depth.specs.Depth.{table, ref_view, depth};

use crate::element::{DepthValue, read_element_if};
use crate::model::{MOST, Model, read_model};
use bits::cursor::Cursor;
use bits::element::{u, ue};
use bits::read::Reading;
use format::limit::at_most;

#[derive(Clone, Copy)]
pub struct Depth {
    pub z_near_flag: u8,
    pub z_far_flag: u8,
    pub d_min_flag: u8,
    pub d_max_flag: u8,
    pub depth_representation_type: u8,
    pub disparity_ref_view_id: u32,
    pub z_near: DepthValue,
    pub z_far: DepthValue,
    pub d_min: DepthValue,
    pub d_max: DepthValue,
    // How many numbers the list has; those past them are 0.
    pub count: u8,
    pub depth_nonlinear_representation_model: [u16; MOST],
}

impl Depth {
    // The record of zeros.
    pub fn zero() -> Depth
        ensures { result ≡ zeros table }
    {
        Depth {
            z_near_flag: 0,
            z_far_flag: 0,
            d_min_flag: 0,
            d_max_flag: 0,
            depth_representation_type: 0,
            disparity_ref_view_id: 0,
            z_near: DepthValue::absent(),
            z_far: DepthValue::absent(),
            d_min: DepthValue::absent(),
            d_max: DepthValue::absent(),
            count: 0,
            depth_nonlinear_representation_model: [0u16; MOST],
        }
    }
}

// The reference view, which is there where a disparity is.
#[tactic(auto, using(format::proofs::Steps::reading))]
fn read_ref_view(s: &[u8], c: Cursor, d_min_flag: u8, d_max_flag: u8) -> Reading<u32>
    requires { Payload s.now }
    ensures { out_of result ≡ run_at (ref_view d_min_flag d_max_flag) s.now c.at }
{
    if d_min_flag == 1 || d_max_flag == 1 {
        ue(s, c)
    } else {
        Ok((0, c))
    }
}

// Every element is read and judged whatever the type.
#[tactic(auto, using(format::proofs::Steps::reading, format::proofs::Steps::step), unfolding(crate::specs::Depth::depth))]
pub fn read(s: &[u8], c: Cursor) -> Reading<Depth>
    requires { Payload s.now }
    ensures { out_of result ≡ run_at depth s.now c.at }
{
    let (z_near_flag, c) = u(s, c, 1)?;
    let (z_far_flag, c) = u(s, c, 1)?;
    let (d_min_flag, c) = u(s, c, 1)?;
    let (d_max_flag, c) = u(s, c, 1)?;
    let (depth_representation_type, c) = at_most(s, c, 15)?;
    let (disparity_ref_view_id, c) = read_ref_view(s, c, d_min_flag, d_max_flag)?;
    let (z_near, c) = read_element_if(s, c, z_near_flag)?;
    let (z_far, c) = read_element_if(s, c, z_far_flag)?;
    let (d_min, c) = read_element_if(s, c, d_min_flag)?;
    let (d_max, c) = read_element_if(s, c, d_max_flag)?;
    let (list, c) = read_model(s, c, depth_representation_type)?;
    let Model {
        count,
        numbers: depth_nonlinear_representation_model,
    } = list;
    let depth = Depth {
        z_near_flag,
        z_far_flag,
        d_min_flag,
        d_max_flag,
        depth_representation_type,
        disparity_ref_view_id,
        z_near,
        z_far,
        d_min,
        d_max,
        count,
        depth_nonlinear_representation_model,
    };
    Ok((depth, c))
}
