// What is judged before a payload is read: its kind, and then its size.
ghost use Rattle.std.specs.Prelude.{◌≡◌};
ghost use Rattle.reader.specs.Entry.{entry_to};

use answers::kind::Kind;

#[derive(Clone, Copy, Debug, PartialEq, Eq)]
pub enum Entry {
    Unlisted,
    Oversized(Kind),
    Payload(Kind),
}

// `room` is how many bytes are lent.
#[tactic(auto, using(crate::proofs::EntryLaws::entries))]
pub fn judged(kind: u64, size: u64, room: usize) -> Entry
    ensures { result ≡ entry_to kind size room }
{
    let Ok(k) = Kind::try_from(kind) else {
        return Entry::Unlisted;
    };
    if 8192 < size || (room as u64) < size {
        return Entry::Oversized(k);
    }
    Entry::Payload(k)
}
