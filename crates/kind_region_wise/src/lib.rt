// Kind 155, region-wise packing: its record and its reader.
#![tactic(auto)]

pub mod region;

ghost use Rattle.std.specs.Prelude.{◌≡◌, ◌≤◌};
ghost use Rattle.bits.specs.Answers.{out_of, out_by};
ghost use Rattle.bits.specs.Bits.{Payload};
ghost use Rattle.format.specs.Format.{zeros};
ghost use Rattle.format.specs.Reading.{element_at, run_at};
ghost use Rattle.format.specs.Syntax.{u as unsigned, ◌must◌, at_least};
ghost use Rattle.kind_region_wise.specs.RegionWise.{countable, table, region_wise};

use crate::region::Region;
use bits::cursor::Cursor;
use bits::element::u;
use bits::read::Reading;
use bits::refusal::Refusal;
use bits::unsigned::Unsigned;
use format::list::read_list;

// The most regions that a message may have: refusal 6 starts above it.
pub const MOST: usize = 16;

#[repr(C)]
#[derive(Clone, Copy)]
pub struct RegionWise {
    pub rwp_cancel_flag: u8,
    pub rwp_persistence_flag: u8,
    pub rwp_constituent_picture_matching_flag: u8,
    pub rwp_num_packed_regions: u8,
    pub rwp_proj_picture_width: u32,
    pub rwp_proj_picture_height: u32,
    pub rwp_packed_picture_width: u16,
    pub rwp_packed_picture_height: u16,
    pub regions: [Region; MOST],
}

impl RegionWise {
    // The record of zeros.
    #[tactic(auto, unfolding(format::specs::Syntax::times, crate::specs::RegionWise::region))]
    pub fn zero() -> RegionWise
        ensures { result ≡ zeros table }
    {
        RegionWise {
            rwp_cancel_flag: 0,
            rwp_persistence_flag: 0,
            rwp_constituent_picture_matching_flag: 0,
            rwp_num_packed_regions: 0,
            rwp_proj_picture_width: 0,
            rwp_proj_picture_height: 0,
            rwp_packed_picture_width: 0,
            rwp_packed_picture_height: 0,
            regions: [Region::zero(); MOST],
        }
    }
}

// How many regions there are: 5 where it is 0, 6 above the limit.
#[inline(always)]
#[tactic(auto, using(format::proofs::ReaderLaws::one_judged))]
fn read_count(s: &[u8], c: Cursor) -> Reading<u8>
    requires { Payload s.now }
    ensures { out_of result ≡ element_at (unsigned 8 must countable) s.now c.at }
{
    let (count, next) = u(s, c, 8)?;
    if count == 0 {
        return Err(Refusal::rule(c));
    }
    if MOST < count as usize {
        return Err(Refusal::regions(c));
    }
    Ok((count, next))
}

// A size of a picture, of n bits: at least 1.
#[inline(always)]
#[tactic(auto, using(format::proofs::ReaderLaws::one_judged))]
fn read_size<T: Unsigned>(s: &[u8], c: Cursor, n: u32) -> Reading<T>
    requires { Payload s.now × (n ≤ T.room) }
    ensures { out_by T.number result ≡ element_at (unsigned n must at_least 1) s.now c.at }
{
    let (size, next) = u::<u32>(s, c, n)?;
    if size == 0 {
        return Err(Refusal::rule(c));
    }
    Ok((T::of(size), next))
}

#[tactic(auto, using(format::proofs::Steps::reading, format::proofs::ReaderLaws::judging, crate::proofs::Kept::few), unfolding(crate::specs::RegionWise::region_wise, crate::specs::RegionWise::region, format::specs::Syntax::times))]
pub fn read(s: &[u8], c: Cursor) -> Reading<RegionWise>
    requires { Payload s.now }
    ensures { out_of result ≡ run_at region_wise s.now c.at }
{
    let (rwp_cancel_flag, c) = u(s, c, 1)?;
    if rwp_cancel_flag != 0 {
        let cancelled = RegionWise {
            rwp_cancel_flag,
            ..RegionWise::zero()
        };
        return Ok((cancelled, c));
    }
    let (rwp_persistence_flag, c) = u(s, c, 1)?;
    let (rwp_constituent_picture_matching_flag, c) = u(s, c, 1)?;
    // rwp_reserved_zero_5bits
    let (_, c) = u::<u8>(s, c, 5)?;
    let (rwp_num_packed_regions, c) = read_count(s, c)?;
    let (rwp_proj_picture_width, c) = read_size(s, c, 32)?;
    let (rwp_proj_picture_height, c) = read_size(s, c, 32)?;
    let (rwp_packed_picture_width, c) = read_size(s, c, 16)?;
    let (rwp_packed_picture_height, c) = read_size(s, c, 16)?;
    let mut regions = [Region::zero(); MOST];
    let count = rwp_num_packed_regions as usize;
    let c = read_list(&mut regions, c, count, |at| region::read(s, at))?;
    let region_wise = RegionWise {
        rwp_cancel_flag,
        rwp_persistence_flag,
        rwp_constituent_picture_matching_flag,
        rwp_num_packed_regions,
        rwp_proj_picture_width,
        rwp_proj_picture_height,
        rwp_packed_picture_width,
        rwp_packed_picture_height,
        regions,
    };
    Ok((region_wise, c))
}
