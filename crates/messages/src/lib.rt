// A payload of each kind: its message, then its end, then whether it is set aside. The slice is the payload and nothing else.
#![tactic(auto)]

mod recorded;

ghost use Rattle.std.specs.Prelude.{◌≡◌};
ghost use Rattle.bits.specs.Answers.{out_of, out_by};
ghost use Rattle.bits.specs.Bits.{Payload};
ghost use Rattle.answers.specs.Listed.{reading_of};
ghost use Rattle.answers.specs.Answer.{brief_of, refused_as, answer_for};
ghost use Rattle.messages.specs.Answered.{answered, recorded};
ghost use Rattle.messages.specs.Beside.{region_wise_of, depth_of, unregistered_of};

use crate::recorded::Recorded;
use answers::kind::{Kind, Message, PassingMessage};
use answers::{Answer, Beside, Brief, Outcome};
use bits::cursor::Cursor;
use bits::ending::tail;
use bits::read::Reading;
use bits::refusal::Refusal;
use kind_depth::Depth;
use kind_frame_packing::aside::set_aside;
use kind_region_wise::RegionWise;
use kind_user_data::unregistered::Unregistered;

// Where a payload begins.
const START: Cursor = Cursor { at: 0 };

// A payload of a kind with a tail, by what reading its message came to and by how it ends; without the record that may stand beside the message.
// Here and below: an answer is returned from each arm, since where arms meet it is copied field by field; and what is marked as inline is a part
// of its callers, or a function of its own, since bench/run counts fewer instructions so.
#[inline(always)]
fn answered<R: Recorded>(kind: Kind, outcome: Outcome, s: &[u8], read: Reading<R>) -> Brief
    requires { Payload s.now }
    ensures { result ≡ answered kind outcome s.now (out_by R.message read) }
{
    match read {
        Ok((record, c)) => {
            let message = record.message();
            return Brief::finished(kind, outcome, message, tail(s, c));
        }
        Err(why) => return Brief::refused(kind, why),
    }
}

// Kind 45 alone has messages that are set aside.
#[inline(never)]
fn frame_packing(s: &[u8]) -> Brief
    requires { Payload s.now }
    ensures { result ≡ brief_of (answer_for Kind.FramePacking (reading_of Kind.FramePacking s.now)) }
{
    let read = kind_frame_packing::read(s, START);
    let outcome = match read {
        Ok((record, _)) if set_aside(record) => Outcome::SetAside,
        _ => Outcome::Taken,
    };
    answered(Kind::FramePacking, outcome, s, read)
}

// User data runs to the end of the payload and has no tail.
fn registered(s: &[u8]) -> Brief
    requires { Payload s.now }
    ensures { result ≡ brief_of (answer_for Kind.Registered (reading_of Kind.Registered s.now)) }
{
    match kind_user_data::registered::read(s, START) {
        Ok((record, _)) => return Brief::registered(record),
        Err(why) => return Brief::refused(Kind::Registered, why),
    }
}

// What a payload is answered of a kind whose record stands beside its message: that record too. It is zeros on a refusal.
#[derive(Clone, Copy)]
pub struct Full<R> {
    pub brief: Brief,
    pub record: R,
}

impl<R: Recorded> Full<R> {
    pub fn refused(kind: Kind, why: Refusal) -> Full<R>
        ensures brief { result.brief ≡ brief_of (refused_as kind why) }
        ensures zeros { result.«record» ≡ R.zeros }
    {
        Full {
            brief: Brief::refused(kind, why),
            record: R::zero(),
        }
    }
}

fn with_record<R: Recorded>(kind: Kind, s: &[u8], read: Reading<R>) -> Full<R>
    requires { Payload s.now }
    ensures brief { result.brief ≡ answered kind Outcome.Taken s.now (out_by R.message read) }
    ensures record { result.«record» ≡ recorded R.zeros s.now (out_of read) }
{
    let brief = answered(kind, Outcome::Taken, s, read);
    match read {
        Ok((record, _)) if brief.outcome == Outcome::Taken => {
            return Full { brief, record };
        }
        _ => {
            return Full {
                brief,
                record: R::zero(),
            };
        }
    }
}

#[inline(always)]
pub fn region_wise(s: &[u8]) -> Full<RegionWise>
    requires { Payload s.now }
    ensures { result ≡ region_wise_of (answer_for Kind.RegionWise (reading_of Kind.RegionWise s.now)) }
{
    with_record(Kind::RegionWise, s, kind_region_wise::read(s, START))
}

pub fn depth(s: &[u8]) -> Full<Depth>
    requires { Payload s.now }
    ensures { result ≡ depth_of (answer_for Kind.Depth (reading_of Kind.Depth s.now)) }
{
    with_record(Kind::Depth, s, kind_depth::read(s, START))
}

pub fn unregistered(s: &[u8]) -> Full<Unregistered>
    requires { Payload s.now }
    ensures { result ≡ unregistered_of (answer_for Kind.Unregistered (reading_of Kind.Unregistered s.now)) }
{
    match kind_user_data::unregistered::read(s, START) {
        Ok((record, _)) => {
            return Full {
                brief: Brief {
                    outcome: Outcome::Taken,
                    message: Message::Passing(PassingMessage::Unregistered),
                    extension: 0,
                    rest: Some(16),
                },
                record,
            };
        }
        Err(why) => return Full::refused(Kind::Unregistered, why),
    }
}

#[inline(always)]
fn orientation(s: &[u8]) -> Brief
    requires { Payload s.now }
    ensures { result ≡ brief_of (answer_for Kind.Orientation (reading_of Kind.Orientation s.now)) }
{
    answered(
        Kind::Orientation,
        Outcome::Taken,
        s,
        kind_orientation::read(s, START),
    )
}

#[inline(always)]
fn equirectangular(s: &[u8]) -> Brief
    requires { Payload s.now }
    ensures { result ≡ brief_of (answer_for Kind.Equirectangular (reading_of Kind.Equirectangular s.now)) }
{
    answered(
        Kind::Equirectangular,
        Outcome::Taken,
        s,
        kind_equirectangular::read(s, START),
    )
}

#[inline(never)]
fn rotation(s: &[u8]) -> Brief
    requires { Payload s.now }
    ensures { result ≡ brief_of (answer_for Kind.Rotation (reading_of Kind.Rotation s.now)) }
{
    answered(
        Kind::Rotation,
        Outcome::Taken,
        s,
        kind_rotation::read(s, START),
    )
}

#[inline(never)]
fn alpha(s: &[u8]) -> Brief
    requires { Payload s.now }
    ensures { result ≡ brief_of (answer_for Kind.Alpha (reading_of Kind.Alpha s.now)) }
{
    answered(Kind::Alpha, Outcome::Taken, s, kind_alpha::read(s, START))
}

// Without its record, in a function that no other kind shares: in one that all share, room for the record would be cleared for every kind.
#[inline(never)]
fn region_wise_brief(s: &[u8]) -> Brief
    requires { Payload s.now }
    ensures { result ≡ brief_of (answer_for Kind.RegionWise (reading_of Kind.RegionWise s.now)) }
{
    answered(
        Kind::RegionWise,
        Outcome::Taken,
        s,
        kind_region_wise::read(s, START),
    )
}

#[inline(never)]
fn depth_brief(s: &[u8]) -> Brief
    requires { Payload s.now }
    ensures { result ≡ brief_of (answer_for Kind.Depth (reading_of Kind.Depth s.now)) }
{
    answered(Kind::Depth, Outcome::Taken, s, kind_depth::read(s, START))
}

// The payload s of a listed kind, but for the record beside its message. Where the kind is a number in the code, it is that kind's arm alone.
#[inline(always)]
pub fn brief_of(kind: Kind, s: &[u8]) -> Brief
    requires { Payload s.now }
    ensures { result ≡ brief_of (answer_for kind (reading_of kind s.now)) }
{
    match kind {
        Kind::FramePacking => return frame_packing(s),
        Kind::Orientation => return orientation(s),
        Kind::Equirectangular => return equirectangular(s),
        Kind::Rotation => return rotation(s),
        Kind::RegionWise => return region_wise_brief(s),
        Kind::Alpha => return alpha(s),
        Kind::Depth => return depth_brief(s),
        Kind::Registered => return registered(s),
        Kind::Unregistered => return unregistered(s).brief,
    }
}

// How it comes out. User data is read here: it costs less than the call that all kinds share.
pub fn outcome_of(kind: Kind, s: &[u8]) -> Outcome
    requires { Payload s.now }
    ensures { result ≡ (answer_for kind (reading_of kind s.now)).outcome }
{
    match kind {
        Kind::Registered => registered(s).outcome,
        Kind::Unregistered => unregistered(s).brief.outcome,
        _ => brief_of(kind, s).outcome,
    }
}

// The whole answer.
pub fn of_kind(kind: Kind, s: &[u8]) -> Answer
    requires { Payload s.now }
    ensures { result ≡ answer_for kind (reading_of kind s.now) }
{
    let mut beside = Beside::nothing();
    match kind {
        Kind::RegionWise => {
            let full = region_wise(s);
            beside.region_wise = full.record;
            return Answer::of(full.brief, beside);
        }
        Kind::Depth => {
            let full = depth(s);
            beside.depth = full.record;
            return Answer::of(full.brief, beside);
        }
        Kind::Unregistered => {
            let full = unregistered(s);
            beside.unregistered = full.record;
            return Answer::of(full.brief, beside);
        }
        _ => return Answer::of(brief_of(kind, s), beside),
    }
}
