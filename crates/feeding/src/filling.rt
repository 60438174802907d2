// A payload of a kind that is held, for slots that are changed in place: a caller gets the one record of that kind, and stores it where the
// payload is taken. And a payload of any other kind.
ghost use Rattle.std.specs.Prelude.{◌≡◌, ℕ, eqb, false, refl};
ghost use Rattle.answers.specs.Listed.{number};
ghost use Rattle.answers.specs.Answer.{outcome_number};
ghost use Rattle.held.specs.Lasting.{kind_of, frame_packing, orientation, equirectangular, rotation, region_wise};
ghost use Rattle.reader.specs.Reader.{answer_to};
ghost use Rattle.feeding.specs.Filling.{lasting_in, leaving_of, taken_mark, reply_by, reply_of, filled_of, filled_as, storing, left_by, shut_reply, replied};
ghost use Rattle.feeding.specs.Feed.{feeding, fed_to};

use answers::Outcome;
use answers::kind::{LastingMessage, Message};
use held::{
    Held, HeldEquirectangular, HeldFramePacking, HeldOrientation, HeldRecord, HeldRegionWise,
    HeldRotation,
};
use reader::brief::brief;
use slots::{Slot, Slots};

// The number, and how many extension bits the payload has.
#[repr(C)]
#[derive(Clone, Copy)]
pub struct Reply {
    pub number: u32,
    pub extension: u32,
}

impl Reply {
    fn of(outcome: Outcome, extension: u32) -> Reply
        ensures { result ≡ reply_by outcome extension }
    {
        Reply {
            number: outcome.number(),
            extension,
        }
    }

    // 8.
    fn shut() -> Reply
        ensures { result ≡ shut_reply }
    {
        Reply {
            number: 8,
            extension: 0,
        }
    }
}

// What a payload is answered; taken is 1 where it is taken, and held is then the record of its kind.
#[derive(Clone, Copy)]
pub struct Filled<H> {
    pub reply: Reply,
    pub taken: u8,
    pub held: H,
}

// The message of a kind that is held; that of kind 155 stands for every other, since its record stands beside it.
fn lasting_in(message: Message) -> LastingMessage
    ensures { result ≡ lasting_in message }
{
    match message {
        Message::Lasting(m) => m,
        Message::Passing(_) => LastingMessage::RegionWise,
        Message::Nothing => LastingMessage::RegionWise,
    }
}

// 1 where the payload is taken.
fn mark(outcome: Outcome) -> u8
    ensures { result ≡ taken_mark outcome }
{
    match outcome {
        Outcome::Taken => 1,
        Outcome::SetAside => 0,
        Outcome::Refused(_) => 0,
    }
}

// A kind that is held, by its number, whose record comes in its message.
pub trait Messaged: HeldRecord {
    const NUMBER: u64;

    ghost NUMBER: { ℕ };

    // What a message leaves; nothing, where it is of another kind.
    fn left_by(message: LastingMessage) -> Self
        ensures { Self.as_held result ≡ leaving_of Self.kind message };

    ghost numbered: { NUMBER ≡ number (kind_of Self.kind) };

    ghost messaged: { eqb NUMBER 155 ≡ false };
}

impl Messaged for HeldFramePacking {
    const NUMBER: u64 = 45;

    ghost NUMBER = { 45 };

    fn left_by(message: LastingMessage) -> HeldFramePacking {
        let LastingMessage::FramePacking(x) = message else {
            return HeldFramePacking::nothing();
        };
        HeldFramePacking::taken(x)
    }

    ghost numbered = { refl };

    ghost messaged = { refl };
}

impl Messaged for HeldOrientation {
    const NUMBER: u64 = 47;

    ghost NUMBER = { 47 };

    fn left_by(message: LastingMessage) -> HeldOrientation {
        let LastingMessage::Orientation(x) = message else {
            return HeldOrientation::nothing();
        };
        HeldOrientation::taken(x)
    }

    ghost numbered = { refl };

    ghost messaged = { refl };
}

impl Messaged for HeldEquirectangular {
    const NUMBER: u64 = 150;

    ghost NUMBER = { 150 };

    fn left_by(message: LastingMessage) -> HeldEquirectangular {
        let LastingMessage::Equirectangular(x) = message else {
            return HeldEquirectangular::nothing();
        };
        HeldEquirectangular::taken(x)
    }

    ghost numbered = { refl };

    ghost messaged = { refl };
}

impl Messaged for HeldRotation {
    const NUMBER: u64 = 154;

    ghost NUMBER = { 154 };

    fn left_by(message: LastingMessage) -> HeldRotation {
        let LastingMessage::Rotation(x) = message else {
            return HeldRotation::nothing();
        };
        HeldRotation::taken(x)
    }

    ghost numbered = { refl };

    ghost messaged = { refl };
}

// Of a kind whose record comes in its message.
pub fn fill<H: Messaged>(size: u64, bytes: &[u8]) -> Filled<H>
    ensures { filled_as H.as_held result ≡ filled_of H.kind size bytes.now }
{
    let brief = brief(H::NUMBER, size, bytes);
    Filled {
        reply: Reply::of(brief.outcome, brief.extension),
        taken: mark(brief.outcome),
        held: H::left_by(lasting_in(brief.message)),
    }
}

// Of kind 155.
pub fn region_wise(size: u64, bytes: &[u8]) -> Filled<HeldRegionWise>
    ensures { result ≡ filled_of region_wise size bytes.now }
{
    let r = reader::regions::region_wise(size, bytes);
    let brief = r.brief;
    Filled {
        reply: Reply::of(brief.outcome, brief.extension),
        taken: mark(brief.outcome),
        held: HeldRegionWise::coded(r.record),
    }
}

// Of a kind that is not held.
pub fn unheld(kind: u64, size: u64, bytes: &[u8]) -> Reply
    ensures { result ≡ reply_of (answer_to kind size bytes.now) }
{
    let brief = brief(kind, size, bytes);
    Reply::of(brief.outcome, brief.extension)
}

// Where a payload is taken, the record of its kind becomes that which it fills.
#[inline(always)]
fn store<H: HeldRecord>(held: &mut Held, after: Filled<H>) -> Reply
    ensures { (held.new, result) ≡ storing H.kind held.old (filled_as H.as_held after) }
{
    if after.taken != 0 {
        after.held.put(held);
    }
    after.reply
}

// What any payload leaves of the five, where they lie. The kind only chooses the place: one record is stored, or none, and nothing else is
// touched.
fn feed_held(held: &mut Held, kind: u64, size: u64, bytes: &[u8]) -> Reply
    ensures { (held.new, result) ≡ left_by held.old (answer_to kind size bytes.now) }
{
    match kind {
        45 => store(held, fill::<HeldFramePacking>(size, bytes)),
        47 => store(held, fill::<HeldOrientation>(size, bytes)),
        150 => store(held, fill::<HeldEquirectangular>(size, bytes)),
        154 => store(held, fill::<HeldRotation>(size, bytes)),
        155 => store(held, region_wise(size, bytes)),
        _ => unheld(kind, size, bytes),
    }
}

// The same of a slot: 8, if it is closed.
pub fn feed_slot(here: &mut Slot, kind: u64, size: u64, bytes: &[u8]) -> Reply
    ensures { (here.new, result) ≡ replied (feeding kind size bytes.now here.old) }
{
    if !here.is_open() {
        return Reply::shut();
    }
    feed_held(&mut here.held, kind, size, bytes)
}

// And of slot n: 8 too, if there is none.
pub fn feed(slots: &mut Slots, n: u64, kind: u64, size: u64, bytes: &[u8]) -> Reply
    ensures { (slots.new, result) ≡ replied (fed_to slots.old n kind size bytes.now) }
{
    if 8 <= n {
        return Reply::shut();
    }
    let here = &mut slots.slots[n as usize];
    feed_slot(here, kind, size, bytes)
}
