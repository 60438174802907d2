// The fields of a payload's record, handed out to a lent row, for callers that have no records. An answer that has all records beside its
// message is not made on the way: it is large.
ghost use Rattle.std.specs.Prelude.{◌≡◌};
ghost use Rattle.bits.specs.Bits.{Payload};
ghost use Rattle.lent.specs.Lent.{left};
ghost use Rattle.answers.specs.Listed.{nothing, reading_of};
ghost use Rattle.answers.specs.Answer.{answer_of, answer_for, outcome_number};
ghost use Rattle.reader.specs.Reader.{answer_to};
ghost use Rattle.record_row.specs.Handing.{wrote_fields};

use crate::record::{lasting, passing};
use crate::row::hand;
use answers::kind::{Kind, Message};
use answers::{Brief, Outcome};
use bits::refusal::Refusal;
use lent::front;
use messages::brief_of;
use reader::entry::{Entry, judged};

// Of an answer with nothing beside its message, which is not looked at where it is refused.
#[tactic(auto, using(crate::proofs::HandingLaws::handing), unfolding(crate::specs::Handing::wrote_fields, crate::specs::Handing::fields_of))]
fn hand_brief(row: &mut [u64], a: Brief) -> Outcome
    ensures { left (outcome_number result) row.new ≡ wrote_fields (answer_of a nothing) row.old }
{
    let outcome = a.outcome;
    if let Outcome::Refused(_) = outcome {
        return outcome;
    }
    let extension = a.extension;
    match a.message {
        Message::Nothing => hand(row, outcome, extension, ()),
        Message::Lasting(m) => lasting(row, outcome, extension, m),
        Message::Passing(m) => passing(row, outcome, extension, m),
    }
}

// A payload of kind 155, by itself: its record has no room in the frame of the other kinds.
#[inline(never)]
fn hand_region_wise(row: &mut [u64], s: &[u8]) -> Outcome
    requires { Payload s.now }
    ensures { left (outcome_number result) row.new ≡ wrote_fields (answer_for Kind.RegionWise (reading_of Kind.RegionWise s.now)) row.old }
{
    let a = messages::region_wise(s);
    hand(row, a.brief.outcome, a.brief.extension, a.record)
}

// The payload s of a listed kind.
fn of_kind(row: &mut [u64], kind: Kind, s: &[u8]) -> Outcome
    requires { Payload s.now }
    ensures { left (outcome_number result) row.new ≡ wrote_fields (answer_for kind (reading_of kind s.now)) row.old }
{
    match kind {
        Kind::RegionWise => hand_region_wise(row, s),
        Kind::Depth => {
            let a = messages::depth(s);
            hand(row, a.brief.outcome, a.brief.extension, a.record)
        }
        Kind::Unregistered => {
            let a = messages::unregistered(s);
            hand(row, a.brief.outcome, a.brief.extension, a.record)
        }
        _ => hand_brief(row, brief_of(kind, s)),
    }
}

// The number of the answer; and the fields of what was taken or set aside, written over the front of the row, 10 where they do not fit.
pub fn write(kind: u64, size: u64, bytes: &[u8], row: &mut [u64]) -> u32
    ensures { left result row.new ≡ wrote_fields (answer_to kind size bytes.now) row.old }
{
    match judged(kind, size, bytes.len()) {
        Entry::Unlisted => Refusal::kind().number(),
        Entry::Oversized(_) => Refusal::size().number(),
        Entry::Payload(k) => of_kind(row, k, front(bytes, size as usize)).number(),
    }
}
