// The kinds, the numbers that name them, and the messages of each.
ghost use Rattle.std.specs.Prelude.{◌≡◌};
ghost use Rattle.answers.specs.Listed.{named, kind_by};
ghost use Rattle.answers.specs.Answer.{zero_message};

use bits::refusal::Refusal;
use kind_alpha::Alpha;
use kind_equirectangular::Equirectangular;
use kind_frame_packing::FramePacking;
use kind_orientation::Orientation;
use kind_rotation::Rotation;
use kind_user_data::registered::Registered;

#[derive(Clone, Copy, Debug, PartialEq, Eq)]
pub enum Kind {
    FramePacking,
    Orientation,
    Equirectangular,
    Rotation,
    RegionWise,
    Alpha,
    Depth,
    Registered,
    Unregistered,
}

// The kind that a number names; refusal 1 where it names none.
impl TryFrom<u64> for Kind {
    type Error = Refusal;

    ghost try_from_gives = { λ number r. r ≡ kind_by (named number) };

    #[tactic(auto, unfolding(crate::specs::Listed::named))]
    fn try_from(number: u64) -> Result<Kind, Refusal> {
        match number {
            45 => Ok(Kind::FramePacking),
            47 => Ok(Kind::Orientation),
            150 => Ok(Kind::Equirectangular),
            154 => Ok(Kind::Rotation),
            155 => Ok(Kind::RegionWise),
            165 => Ok(Kind::Alpha),
            177 => Ok(Kind::Depth),
            4 => Ok(Kind::Registered),
            5 => Ok(Kind::Unregistered),
            _ => Err(Refusal::kind()),
        }
    }
}

// A message of a kind that a slot holds. A record that holds an array stands beside the message, in the answer; here and below.
#[derive(Clone, Copy)]
pub enum LastingMessage {
    FramePacking(FramePacking),
    Orientation(Orientation),
    Equirectangular(Equirectangular),
    Rotation(Rotation),
    RegionWise,
}

// A message of a kind that is read and not held.
#[derive(Clone, Copy)]
pub enum PassingMessage {
    Alpha(Alpha),
    Depth,
    Registered(Registered),
    Unregistered,
}

#[derive(Clone, Copy)]
pub enum Message {
    // Of no listed kind.
    Nothing,
    Lasting(LastingMessage),
    Passing(PassingMessage),
}

impl Message {
    // The message of zeros of a kind.
    pub(crate) fn zero(kind: Kind) -> Message
        ensures { result ≡ zero_message kind }
    {
        match kind {
            Kind::FramePacking => {
                Message::Lasting(LastingMessage::FramePacking(FramePacking::zero()))
            }
            Kind::Orientation => {
                Message::Lasting(LastingMessage::Orientation(Orientation::zero()))
            }
            Kind::Equirectangular => {
                Message::Lasting(LastingMessage::Equirectangular(Equirectangular::zero()))
            }
            Kind::Rotation => Message::Lasting(LastingMessage::Rotation(Rotation::zero())),
            Kind::RegionWise => Message::Lasting(LastingMessage::RegionWise),
            Kind::Alpha => Message::Passing(PassingMessage::Alpha(Alpha::zero())),
            Kind::Depth => Message::Passing(PassingMessage::Depth),
            Kind::Registered => Message::Passing(PassingMessage::Registered(Registered::zero())),
            Kind::Unregistered => Message::Passing(PassingMessage::Unregistered),
        }
    }
}
