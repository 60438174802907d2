// The reader, for a caller who wants no record beside the message: such an answer is small.
ghost use Rattle.std.specs.Prelude.{◌≡◌};
ghost use Rattle.answers.specs.Answer.{brief_of};
ghost use Rattle.reader.specs.Reader.{answer_to};

use crate::entry::{Entry, judged};
use answers::Brief;
use bits::refusal::Refusal;
use lent::front;
use messages::brief_of;

#[inline(always)]
pub fn brief(kind: u64, size: u64, bytes: &[u8]) -> Brief
    ensures { result ≡ brief_of (answer_to kind size bytes.now) }
{
    match judged(kind, size, bytes.len()) {
        Entry::Unlisted => return Brief::unknown(),
        Entry::Oversized(k) => return Brief::refused(k, Refusal::size()),
        Entry::Payload(k) => return brief_of(k, front(bytes, size as usize)),
    }
}
