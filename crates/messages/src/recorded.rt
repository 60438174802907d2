// A kind's record and its message: the record is in the message, or stands beside it in an answer.
ghost use Rattle.std.specs.Prelude.{◌≡◌};
ghost use Rattle.answers.specs.Listed.{zeros};
ghost use Rattle.answers.specs.Answer.{message_of};
ghost use Rattle.answers.specs.declared.kind.Kind.TheVariants as kinds;
ghost use Rattle.answers.specs.declared.kind.Message.{Message};

use answers::kind::{LastingMessage, Message, PassingMessage};
use kind_alpha::Alpha;
use kind_depth::Depth;
use kind_equirectangular::Equirectangular;
use kind_frame_packing::FramePacking;
use kind_orientation::Orientation;
use kind_region_wise::RegionWise;
use kind_rotation::Rotation;
use kind_user_data::unregistered::Unregistered;

pub trait Recorded: Copy {
    ghost zeros: { Self };

    ghost message: { Self → Message };

    fn zero() -> Self
        ensures { result ≡ zeros };

    fn message(&self) -> Message
        ensures { result ≡ message self.now };
}

impl Recorded for FramePacking {
    ghost zeros = { zeros kinds.FramePacking };

    ghost message = { message_of kinds.FramePacking };

    fn zero() -> FramePacking {
        FramePacking::zero()
    }

    fn message(&self) -> Message {
        Message::Lasting(LastingMessage::FramePacking(*self))
    }
}

impl Recorded for Orientation {
    ghost zeros = { zeros kinds.Orientation };

    ghost message = { message_of kinds.Orientation };

    fn zero() -> Orientation {
        Orientation::zero()
    }

    fn message(&self) -> Message {
        Message::Lasting(LastingMessage::Orientation(*self))
    }
}

impl Recorded for Equirectangular {
    ghost zeros = { zeros kinds.Equirectangular };

    ghost message = { message_of kinds.Equirectangular };

    fn zero() -> Equirectangular {
        Equirectangular::zero()
    }

    fn message(&self) -> Message {
        Message::Lasting(LastingMessage::Equirectangular(*self))
    }
}

impl Recorded for Rotation {
    ghost zeros = { zeros kinds.Rotation };

    ghost message = { message_of kinds.Rotation };

    fn zero() -> Rotation {
        Rotation::zero()
    }

    fn message(&self) -> Message {
        Message::Lasting(LastingMessage::Rotation(*self))
    }
}

impl Recorded for RegionWise {
    ghost zeros = { zeros kinds.RegionWise };

    ghost message = { message_of kinds.RegionWise };

    fn zero() -> RegionWise {
        RegionWise::zero()
    }

    fn message(&self) -> Message {
        Message::Lasting(LastingMessage::RegionWise)
    }
}

impl Recorded for Alpha {
    ghost zeros = { zeros kinds.Alpha };

    ghost message = { message_of kinds.Alpha };

    fn zero() -> Alpha {
        Alpha::zero()
    }

    fn message(&self) -> Message {
        Message::Passing(PassingMessage::Alpha(*self))
    }
}

impl Recorded for Depth {
    ghost zeros = { zeros kinds.Depth };

    ghost message = { message_of kinds.Depth };

    fn zero() -> Depth {
        Depth::zero()
    }

    fn message(&self) -> Message {
        Message::Passing(PassingMessage::Depth)
    }
}

impl Recorded for Unregistered {
    ghost zeros = { zeros kinds.Unregistered };

    ghost message = { message_of kinds.Unregistered };

    fn zero() -> Unregistered {
        Unregistered::zero()
    }

    fn message(&self) -> Message {
        Message::Passing(PassingMessage::Unregistered)
    }
}
