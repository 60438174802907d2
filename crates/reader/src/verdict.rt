// The number of an answer, for a caller who wants no more.
ghost use Rattle.std.specs.Prelude.{◌≡◌};
ghost use Rattle.answers.specs.Answer.{answer_number};
ghost use Rattle.reader.specs.Reader.{answer_to};

use crate::entry::{Entry, judged};
use bits::refusal::Refusal;
use lent::front;
use messages::outcome_of;

pub fn number(kind: u64, size: u64, bytes: &[u8]) -> u32
    ensures { result ≡ answer_number (answer_to kind size bytes.now) }
{
    match judged(kind, size, bytes.len()) {
        Entry::Unlisted => Refusal::kind().number(),
        Entry::Oversized(_) => Refusal::size().number(),
        Entry::Payload(k) => outcome_of(k, front(bytes, size as usize)).number(),
    }
}
