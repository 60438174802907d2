// The reader of kind 155 alone: any size, any bytes.
ghost use Rattle.std.specs.Prelude.{◌≡◌};
ghost use Rattle.messages.specs.Beside.{region_wise_of};
ghost use Rattle.reader.specs.Reader.{answer_to};

use crate::entry::{Entry, judged};
use answers::kind::Kind;
use bits::refusal::Refusal;
use kind_region_wise::RegionWise;
use lent::front;
use messages::Full;

pub fn region_wise(size: u64, bytes: &[u8]) -> Full<RegionWise>
    ensures { result ≡ region_wise_of (answer_to 155 size bytes.now) }
{
    let Entry::Payload(_) = judged(155, size, bytes.len()) else {
        return Full::refused(Kind::RegionWise, Refusal::size());
    };
    messages::region_wise(front(bytes, size as usize))
}
