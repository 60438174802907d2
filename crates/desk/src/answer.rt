// What a call on a slot answers, and the slots as it leaves them.
ghost use Rattle.std.specs.Prelude.{◌≡◌};
ghost use Rattle.desk.specs.Slots.{slots_after};

use crate::picture::pictured;
use crate::read::shown;
use crate::status::status;
use crate::table::table;
use bits::refusal::Refusal;
use held::Held;
use lent::front;
use print::Out;
use script::call::Call;
use script::line::BYTES;
use show::number::called;
use show::style::Style;
use slots::{Slots, number};

// A call that answers a number only.
fn done(out: &mut Out, answer: Result<(), Refusal>) {
    let n = number(answer);
    called(out, n);
    status(out, n);
    out.text("\n");
}

// The calls that look at no slot leave them all, and are not answered here.
#[tactic(auto, unfolding(crate::specs::Slots::slots_after))]
pub fn answer(out: &mut Out, slots: &mut Slots, call: Call, bytes: &[u8; BYTES])
    ensures { slots.new ≡ slots_after call slots.old bytes.now }
{
    match call {
        Call::Open(n) => done(out, slots.open(n)),
        Call::Close(n) => done(out, slots.close(n)),
        Call::Sequence(n) => done(out, slots.sequence(n)),
        Call::Picture(n) => {
            let mut held = Held::nothing();
            let answer = slots.picture(n, &mut held);
            pictured(out, answer, held);
        }
        Call::Table(n, numbers) => table(out, *slots, n, numbers),
        Call::Feed(n, p) => {
            let answer = feeding::feed(slots, n, p.kind, p.size, front(bytes, p.count));
            shown(out, Style::Line, answer, p, front(bytes, p.count));
        }
        _ => {}
    }
}
