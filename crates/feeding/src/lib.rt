// A payload goes into a slot.
#![tactic(auto)]

pub mod filling;

ghost use Rattle.std.specs.Prelude.{◌≡◌};
ghost use Rattle.feeding.specs.Feed.{held_lasting, held_with, held_by, shut_answer, feeding, fed_to};

use answers::kind::{Kind, LastingMessage, Message};
use answers::{Answer, Outcome};
use bits::refusal::Refusal;
use held::{
    Held, HeldEquirectangular, HeldFramePacking, HeldOrientation, HeldRegionWise, HeldRotation,
};
use kind_region_wise::RegionWise;
use reader::payload;
use slots::{Slot, Slots};

// What a taken message leaves of the held records, where its kind is held; the record of kind 155 stands beside its message.
fn held_lasting(held: Held, lasting: LastingMessage, region_wise: RegionWise) -> Held
    ensures { result ≡ held_lasting held lasting region_wise }
{
    match lasting {
        LastingMessage::FramePacking(x) => held.with::<HeldFramePacking>(x),
        LastingMessage::Orientation(x) => held.with::<HeldOrientation>(x),
        LastingMessage::Equirectangular(x) => held.with::<HeldEquirectangular>(x),
        LastingMessage::Rotation(x) => held.with::<HeldRotation>(x),
        LastingMessage::RegionWise => held.with::<HeldRegionWise>(region_wise),
    }
}

fn held_with(held: Held, message: Message, region_wise: RegionWise) -> Held
    ensures { result ≡ held_with held message region_wise }
{
    match message {
        Message::Lasting(m) => held_lasting(held, m, region_wise),
        Message::Passing(_) => held,
        Message::Nothing => held,
    }
}

// What an answer leaves of them, by its outcome: only a taken message changes them.
fn held_by(held: Held, outcome: Outcome, message: Message, region_wise: RegionWise) -> Held
    ensures { result ≡ held_by held outcome message region_wise }
{
    match outcome {
        Outcome::Taken => held_with(held, message, region_wise),
        Outcome::SetAside => held,
        Outcome::Refused(_) => held,
    }
}

// Refusal 8, with the zeros of the kind asked for, if it is listed.
fn shut(kind: u64) -> Answer
    ensures { result ≡ shut_answer kind }
{
    match Kind::try_from(kind) {
        Ok(k) => Answer::refused(k, Refusal::slot()),
        Err(_) => Answer::plain(Outcome::Refused(Refusal::slot()), Message::Nothing, 0),
    }
}

// The slot is judged before anything is read.
pub fn feed_slot(here: &mut Slot, kind: u64, size: u64, bytes: &[u8]) -> Answer
    ensures { (here.new, result) ≡ feeding kind size bytes.now here.old }
{
    if !here.is_open() {
        return shut(kind);
    }
    let answer = payload::read(kind, size, bytes);
    let left = held_by(
        here.held,
        answer.outcome,
        answer.message,
        answer.beside.region_wise,
    );
    *here = here.holding(left);
    answer
}

pub fn feed(slots: &mut Slots, n: u64, kind: u64, size: u64, bytes: &[u8]) -> Answer
    ensures { (slots.new, result) ≡ fed_to slots.old n kind size bytes.now }
{
    if 8 <= n {
        return shut(kind);
    }
    let here = &mut slots.slots[n as usize];
    feed_slot(here, kind, size, bytes)
}
