// Slices that a caller lent: the front of one, and numbers written into one.
#![tactic(auto)]

pub mod number;

ghost use Rattle.std.specs.Prelude.{◌≡◌, ◌+◌, ◌≤◌, length, take, map};
ghost use Rattle.std.proofs.lemmas.List.Edits.{sets};

use crate::number::Number;

// The first n of the lent bytes; all of them where there are no more.
pub fn front(bytes: &[u8], n: usize) -> &[u8]
    ensures { result.now ≡ take n bytes.now }
{
    &bytes[..n.min(bytes.len())]
}

// The numbers `from`, at `at` and after it.
#[tactic(auto, using(crate::proofs::Stores::put_more))]
pub fn put<T: Number>(lent: &mut [u64], at: usize, from: &[T])
    requires { at + length from.now ≤ length lent.old }
    ensures { lent.new ≡ sets lent.old at (map T.number from.now) }
{
    for (j, x) in from.iter().enumerate() {
        lent[at + j] = x.number();
    }
}
