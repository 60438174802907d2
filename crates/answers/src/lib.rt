// What the reader answers, and the number that a caller gets.
#![tactic(auto)]

pub mod kind;

ghost use Rattle.std.specs.Prelude.{◌≡◌};
ghost use Rattle.answers.specs.Listed.{nothing};
ghost use Rattle.answers.specs.Answer.{outcome_number, brief_of, answer_of, plain, made, finished, refused_as, unknown};

use crate::kind::{Kind, Message, PassingMessage};
use bits::refusal::Refusal;
use kind_depth::Depth;
use kind_region_wise::RegionWise;
use kind_user_data::registered::Registered;
use kind_user_data::unregistered::Unregistered;

#[derive(Clone, Copy, Debug, PartialEq, Eq)]
pub enum Outcome {
    Taken,
    SetAside,
    Refused(Refusal),
}

impl Outcome {
    // The number that a caller gets.
    pub fn number(self) -> u32
        ensures { result ≡ outcome_number self }
    {
        match self {
            Outcome::Taken => 0,
            Outcome::SetAside => 20,
            Outcome::Refused(why) => why.number(),
        }
    }
}

// The records that hold an array, each zeros where the message is of another kind.
#[derive(Clone, Copy)]
pub struct Beside {
    pub region_wise: RegionWise,
    pub depth: Depth,
    pub unregistered: Unregistered,
}

impl Beside {
    // Zeros: the message is of no kind whose record holds an array.
    pub fn nothing() -> Beside
        ensures { result ≡ nothing }
    {
        Beside {
            region_wise: RegionWise::zero(),
            depth: Depth::zero(),
            unregistered: Unregistered::zero(),
        }
    }
}

// An answer but for the records beside its message. On a refusal the message is zeros, and there is no rest.
#[derive(Clone, Copy)]
pub struct Brief {
    pub outcome: Outcome,
    pub message: Message,
    pub extension: u32,
    // The byte at which the rest of a payload of kind 4 or 5 begins.
    pub rest: Option<usize>,
}

impl Brief {
    // With no rest.
    fn plain(outcome: Outcome, message: Message, extension: u32) -> Brief
        ensures { result ≡ brief_of (plain outcome message extension) }
    {
        Brief {
            outcome,
            message,
            extension,
            rest: None,
        }
    }

    // The refusal of a payload of a kind, with zeros.
    pub fn refused(kind: Kind, why: Refusal) -> Brief
        ensures { result ≡ brief_of (refused_as kind why) }
    {
        Brief::plain(Outcome::Refused(why), Message::zero(kind), 0)
    }

    // The refusal of a kind that is none of those listed: there are no fields.
    pub fn unknown() -> Brief
        ensures { result ≡ brief_of unknown }
    {
        Brief::plain(Outcome::Refused(Refusal::kind()), Message::Nothing, 0)
    }

    // By how the payload ends: the message with that outcome, or the refusal.
    pub fn finished(
        kind: Kind,
        outcome: Outcome,
        message: Message,
        end: Result<u32, Refusal>,
    ) -> Brief
        ensures { result ≡ brief_of (finished kind outcome message end) }
    {
        match end {
            Ok(e) => return Brief::plain(outcome, message, e),
            Err(why) => return Brief::refused(kind, why),
        }
    }

    // Kind 4: what follows the head is the payload's rest.
    pub fn registered(value: Registered) -> Brief
        ensures { result ≡ brief_of (made Kind.Registered Outcome.Taken value 0) }
    {
        Brief {
            outcome: Outcome::Taken,
            message: Message::Passing(PassingMessage::Registered(value)),
            extension: 0,
            rest: Some(value.head_bytes()),
        }
    }
}

// On a refusal the records beside the message are zeros too.
#[derive(Clone, Copy)]
pub struct Answer {
    pub outcome: Outcome,
    pub message: Message,
    pub extension: u32,
    pub rest: Option<usize>,
    pub beside: Beside,
}

impl Answer {
    pub fn of(brief: Brief, beside: Beside) -> Answer
        ensures { result ≡ answer_of brief beside }
    {
        Answer {
            outcome: brief.outcome,
            message: brief.message,
            extension: brief.extension,
            rest: brief.rest,
            beside,
        }
    }

    // With nothing beside the message, and no rest.
    pub fn plain(outcome: Outcome, message: Message, extension: u32) -> Answer
        ensures { result ≡ plain outcome message extension }
    {
        Answer::of(Brief::plain(outcome, message, extension), Beside::nothing())
    }

    // The refusal of a payload of a kind, with zeros.
    pub fn refused(kind: Kind, why: Refusal) -> Answer
        ensures { result ≡ refused_as kind why }
    {
        Answer::of(Brief::refused(kind, why), Beside::nothing())
    }
}
