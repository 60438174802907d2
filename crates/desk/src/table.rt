// The region table of a slot.
ghost use Rattle.std.specs.Prelude.{◌*◌, ◌≤◌};
ghost use Rattle.kind_region_wise.specs.RegionWise.{most};

use crate::status::status;
use bits::refusal::Refusal;
use kind_region_wise::MOST;
use print::Out;
use show::number::called;
use slots::Slots;

// Two rows a region fill these: lending more changes nothing.
const NUMBERS: usize = 18 * MOST;

fn lent(n: u64) -> usize
    ensures { result ≤ 18 * most }
{
    n.min(NUMBERS as u64) as usize
}

fn shown(out: &mut Out, r: Result<u32, Refusal>, rows: &[u64; NUMBERS]) {
    match r {
        Ok(count) => {
            out.text("0 done rows=");
            out.number(u64::from(count));
            show::table::table(out, rows, count);
        }
        Err(why) => {
            let n = why.number();
            called(out, n);
            status(out, n);
        }
    }
    out.text("\n");
}

pub fn table(out: &mut Out, slots: Slots, slot: u64, n: u64) {
    let mut rows = [0u64; NUMBERS];
    let r = region_table::table(slots, slot, &mut rows[..lent(n)]);
    shown(out, r, &rows);
}
