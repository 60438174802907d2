// What a picture answers: the held records, explained.
use crate::status::status;
use bits::refusal::Refusal;
use held::{
    Held, HeldEquirectangular, HeldFramePacking, HeldOrientation, HeldRegionWise, HeldRotation,
};
use print::Out;
use show::number::called;
use slots::number;

// A kind's record, and whether one is held.
fn one(out: &mut Out, kind: u64, on: u8, row: &[u64]) -> bool {
    if on == 1 {
        show::answer::held(out, kind, row);
        return true;
    }
    false
}

fn frame_packing(out: &mut Out, held: HeldFramePacking) -> bool {
    let row = record_row::record::frame_packing(0, held.value);
    one(out, 45, held.on, &row)
}

fn orientation(out: &mut Out, held: HeldOrientation) -> bool {
    let row = record_row::record::orientation(0, held.value);
    one(out, 47, held.on, &row)
}

fn equirectangular(out: &mut Out, held: HeldEquirectangular) -> bool {
    let row = record_row::record::equirectangular(0, held.value);
    one(out, 150, held.on, &row)
}

fn rotation(out: &mut Out, held: HeldRotation) -> bool {
    let row = record_row::record::rotation(0, held.value);
    one(out, 154, held.on, &row)
}

fn packing(out: &mut Out, held: HeldRegionWise) -> bool {
    let row = record_row::record::region_wise(0, held.value);
    one(out, 155, held.on, &row)
}

fn records(out: &mut Out, held: Held) {
    let some = frame_packing(out, held.frame_packing)
        | orientation(out, held.orientation)
        | equirectangular(out, held.equirectangular)
        | rotation(out, held.rotation)
        | packing(out, held.region_wise);
    if !some {
        out.text(", nothing is held");
    }
}

// The number and, unless the call is refused, what is held.
pub fn pictured(out: &mut Out, answer: Result<(), Refusal>, held: Held) {
    let n = number(answer);
    called(out, n);
    status(out, n);
    if n == 0 {
        records(out, held);
    }
    out.text("\n");
}
