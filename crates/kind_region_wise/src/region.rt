// One region: its record and its reader.
ghost use Rattle.std.specs.Prelude.{◌≡◌};
ghost use Rattle.bits.specs.Answers.{out_of};
ghost use Rattle.bits.specs.Bits.{Payload};
ghost use Rattle.format.specs.Format.{zeros};
ghost use Rattle.format.specs.Reading.{run_at};
ghost use Rattle.kind_region_wise.specs.RegionWise.{region_table, region};

use bits::cursor::Cursor;
use bits::element::u;
use bits::read::Reading;
use format::guard::guard_type;

// Where a region lies in the projected picture.
#[repr(C)]
#[derive(Clone, Copy, Default)]
pub struct ProjectedArea {
    pub rwp_proj_region_width: u32,
    pub rwp_proj_region_height: u32,
    pub rwp_proj_region_top: u32,
    pub rwp_proj_region_left: u32,
}

// And in the packed one.
#[repr(C)]
#[derive(Clone, Copy, Default)]
pub struct PackedArea {
    pub rwp_packed_region_width: u16,
    pub rwp_packed_region_height: u16,
    pub rwp_packed_region_top: u16,
    pub rwp_packed_region_left: u16,
}

// rwp_guard_band_type[ i ][ j ] for j = 0, 1, 2, 3: of the left, right, top and bottom edge. Reserved types, 4 to 7, are 0 here.
#[repr(C)]
#[derive(Clone, Copy, Default)]
pub struct GuardTypes {
    pub left: u8,
    pub right: u8,
    pub top: u8,
    pub bottom: u8,
}

#[repr(C)]
#[derive(Clone, Copy, Default)]
pub struct GuardBands {
    pub rwp_left_guard_band_width: u8,
    pub rwp_right_guard_band_width: u8,
    pub rwp_top_guard_band_height: u8,
    pub rwp_bottom_guard_band_height: u8,
    pub rwp_guard_band_not_used_for_pred_flag: u8,
    pub types: GuardTypes,
}

#[repr(C)]
#[derive(Clone, Copy, Default)]
pub struct Region {
    pub rwp_transform_type: u8,
    pub rwp_guard_band_flag: u8,
    pub projected: ProjectedArea,
    pub packed: PackedArea,
    pub guard: GuardBands,
}

impl Region {
    // The record of zeros.
    pub(crate) fn zero() -> Region
        ensures { result ≡ zeros region_table }
    {
        Region::default()
    }
}

#[tactic(auto, using(format::proofs::Steps::reading, format::proofs::ReaderLaws::judging), unfolding(crate::specs::RegionWise::region))]
pub(crate) fn read(s: &[u8], c: Cursor) -> Reading<Region>
    requires { Payload s.now }
    ensures { out_of result ≡ run_at region s.now c.at }
{
    // rwp_reserved_zero_4bits
    let (_, c) = u::<u8>(s, c, 4)?;
    let (rwp_transform_type, c) = u(s, c, 3)?;
    let (rwp_guard_band_flag, c) = u(s, c, 1)?;
    let (rwp_proj_region_width, c) = u(s, c, 32)?;
    let (rwp_proj_region_height, c) = u(s, c, 32)?;
    let (rwp_proj_region_top, c) = u(s, c, 32)?;
    let (rwp_proj_region_left, c) = u(s, c, 32)?;
    let (rwp_packed_region_width, c) = u(s, c, 16)?;
    let (rwp_packed_region_height, c) = u(s, c, 16)?;
    let (rwp_packed_region_top, c) = u(s, c, 16)?;
    let (rwp_packed_region_left, c) = u(s, c, 16)?;
    let unguarded = Region {
        rwp_transform_type,
        rwp_guard_band_flag,
        projected: ProjectedArea {
            rwp_proj_region_width,
            rwp_proj_region_height,
            rwp_proj_region_top,
            rwp_proj_region_left,
        },
        packed: PackedArea {
            rwp_packed_region_width,
            rwp_packed_region_height,
            rwp_packed_region_top,
            rwp_packed_region_left,
        },
        guard: GuardBands::default(),
    };
    if rwp_guard_band_flag != 1 {
        return Ok((unguarded, c));
    }
    let (rwp_left_guard_band_width, c) = u(s, c, 8)?;
    let (rwp_right_guard_band_width, c) = u(s, c, 8)?;
    let (rwp_top_guard_band_height, c) = u(s, c, 8)?;
    let (rwp_bottom_guard_band_height, c) = u(s, c, 8)?;
    let (rwp_guard_band_not_used_for_pred_flag, c) = u(s, c, 1)?;
    let (left, c) = guard_type(s, c, rwp_guard_band_not_used_for_pred_flag)?;
    let (right, c) = guard_type(s, c, rwp_guard_band_not_used_for_pred_flag)?;
    let (top, c) = guard_type(s, c, rwp_guard_band_not_used_for_pred_flag)?;
    let (bottom, c) = guard_type(s, c, rwp_guard_band_not_used_for_pred_flag)?;
    // rwp_guard_band_reserved_zero_3bits
    let (_, c) = u::<u8>(s, c, 3)?;
    let guard = GuardBands {
        rwp_left_guard_band_width,
        rwp_right_guard_band_width,
        rwp_top_guard_band_height,
        rwp_bottom_guard_band_height,
        rwp_guard_band_not_used_for_pred_flag,
        types: GuardTypes {
            left,
            right,
            top,
            bottom,
        },
    };
    Ok((Region { guard, ..unguarded }, c))
}
