// What is shown of a payload and its answer.
use crate::status::status;
use answers::Answer;
use lent::front;
use print::Out;
use reader::payload;
use reader::user::user_part;
use record_row::record::REGION_WISE_FIELDS;
use script::call::Payload;
use script::line::BYTES;
use show::answer::Asked;
use show::style::Style;

// What follows the head of kinds 4 and 5. Only where there is such a part is the payload read again for it.
fn part(answer: Answer, p: Payload, bytes: &[u8]) -> &[u8] {
    match answer.rest {
        Some(_) => user_part(p.kind, p.size, bytes),
        None => &[],
    }
}

// What a payload was answered.
pub fn shown(out: &mut Out, style: Style, answer: Answer, p: Payload, bytes: &[u8]) {
    let n = answer.outcome.number();
    // kind 155 has the longest row; of a refusal, 8 too, no field is shown
    let mut row = [0u64; REGION_WISE_FIELDS];
    record_row::handing::write(p.kind, p.size, bytes, &mut row);
    let part = part(answer, p, bytes);
    let asked = Asked {
        kind: p.kind,
        size: p.size,
        number: n,
    };
    let payload = front(bytes, p.size as usize);
    show::answer::answer(out, style, asked, &row, payload, part);
    status(out, n);
}

pub fn read(out: &mut Out, style: Style, p: Payload, lent: &[u8; BYTES]) {
    let bytes = front(lent, p.count);
    shown(out, style, payload::read(p.kind, p.size, bytes), p, bytes);
}
