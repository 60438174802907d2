// The reader: any kind, any size, any bytes.
ghost use Rattle.std.specs.Prelude.{◌≡◌};
ghost use Rattle.reader.specs.Reader.{answer_to};

use crate::entry::{Entry, judged};
use answers::{Answer, Beside, Brief};
use bits::refusal::Refusal;
use lent::front;
use messages::of_kind;

// The stated size cuts the lent bytes here: nothing below sees more.
pub fn read(kind: u64, size: u64, bytes: &[u8]) -> Answer
    ensures { result ≡ answer_to kind size bytes.now }
{
    match judged(kind, size, bytes.len()) {
        Entry::Unlisted => return Answer::of(Brief::unknown(), Beside::nothing()),
        Entry::Oversized(k) => return Answer::refused(k, Refusal::size()),
        Entry::Payload(k) => return of_kind(k, front(bytes, size as usize)),
    }
}
