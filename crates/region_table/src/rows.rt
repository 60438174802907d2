// The region table of a packing, written to lent numbers.
ghost use Rattle.std.specs.Prelude.{◌≡◌, ◌+◌, ◌*◌, ◌≤◌, length};
ghost use Rattle.std.proofs.lemmas.List.Edits.{sets};
ghost use Rattle.region_table.specs.Rows.{no_shift, row, rows_by, rows_with, count_with, second_of, fitted, table_of, wrote};
ghost use Rattle.kind_region_wise.specs.RegionWise.{most};
ghost use Rattle.lent.specs.Lent.{left};

use bits::refusal::Refusal;
use kind_region_wise::region::Region;
use kind_region_wise::{MOST, RegionWise};
use lent::put;

// How the second half of the rows is shifted.
#[derive(Clone, Copy)]
pub enum Split {
    // There is no second half.
    Whole,
    // By half the pictures' widths: the held kind 45 is of type 3.
    Beside,
    // By half their heights: it is of type 4.
    Below,
}

// What a row's places are increased by, in the projected and in the packed picture.
#[derive(Clone, Copy, Default)]
struct Shift {
    projected_left: u32,
    projected_top: u32,
    packed_left: u16,
    packed_top: u16,
}

// How many numbers a row is.
const ROW: usize = 9;

// The numbers of one region. Both terms are widened before they are added.
fn row_of(r: Region, by: Shift) -> [u64; ROW]
    ensures { result ≡ row by r }
{
    [
        u64::from(r.projected.rwp_proj_region_left) + u64::from(by.projected_left),
        u64::from(r.projected.rwp_proj_region_top) + u64::from(by.projected_top),
        u64::from(r.projected.rwp_proj_region_width),
        u64::from(r.projected.rwp_proj_region_height),
        u64::from(r.packed.rwp_packed_region_left) + u64::from(by.packed_left),
        u64::from(r.packed.rwp_packed_region_top) + u64::from(by.packed_top),
        u64::from(r.packed.rwp_packed_region_width),
        u64::from(r.packed.rwp_packed_region_height),
        u64::from(r.rwp_transform_type),
    ]
}

// One row a region, from `at` on.
#[tactic(auto, using(crate::proofs::RowLaws::rows_more))]
fn put_rows(lent: &mut [u64], at: usize, regions: &[Region], by: Shift)
    requires { at + 9 * length regions.now ≤ length lent.old }
    ensures { lent.new ≡ sets lent.old at (rows_by by regions.now) }
{
    for (i, r) in regions.iter().enumerate() {
        put(lent, at + ROW * i, &row_of(*r, by));
    }
}

// How many rows there are.
fn count(regions: usize, second: Option<Shift>) -> usize
    requires { regions ≤ most }
    ensures { result ≡ count_with second regions }
{
    match second {
        None => regions,
        Some(_) => 2 * regions,
    }
}

// One row a region, followed by as many again where there is a shift for them; or none at all.
fn put_table(lent: &mut [u64], regions: &[Region], second: Option<Shift>) -> Result<u32, Refusal>
    requires { length regions.now ≤ most }
    ensures { left result lent.new ≡ wrote (fitted (count_with second (length regions.now)) (rows_with second regions.now) (length lent.old)) lent.old }
{
    let half = regions.len();
    let count = count(half, second);
    if lent.len() < ROW * count {
        return Err(Refusal::rows());
    }
    put_rows(lent, 0, regions, Shift::default());
    if let Some(by) = second {
        put_rows(lent, ROW * half, regions, by);
    }
    Ok(count as u32)
}

// By how much the second half is shifted, if there is one.
fn second_half(p: &RegionWise, split: Split) -> Option<Shift>
    ensures { result ≡ second_of p.now split }
{
    match split {
        Split::Whole => None,
        Split::Beside => Some(Shift {
            projected_left: p.rwp_proj_picture_width / 2,
            packed_left: p.rwp_packed_picture_width / 2,
            ..Shift::default()
        }),
        Split::Below => Some(Shift {
            projected_top: p.rwp_proj_picture_height / 2,
            packed_top: p.rwp_packed_picture_height / 2,
            ..Shift::default()
        }),
    }
}

// How many rows the table has, which stand over the front of the lent numbers. A record with no region is that of a cancel, and one with more than
// it holds no reader makes; a caller can pass either.
#[tactic(auto, using(crate::proofs::CountLaws::tables))]
pub fn write(p: RegionWise, split: Split, lent: &mut [u64]) -> Result<u32, Refusal>
    ensures { left result lent.new ≡ wrote (table_of p split (length lent.old)) lent.old }
{
    let count = p.rwp_num_packed_regions as usize;
    if count == 0 || MOST < count {
        return Err(Refusal::table());
    }
    put_table(lent, &p.regions[..count], second_half(&p, split))
}
