// The words of a line, and the numbers that they spell.
ghost use Rattle.std.specs.Prelude.{◌≡◌};
ghost use Rattle.script.specs.Words.{alike, first_of, rest_of, told, argument_of, last_of};

use crate::wrong::{Why, Wrong};
use words::number::{NumberError, number};
use words::place::{find, skip};

// Whether two texts are the same.
#[tactic(auto, using(crate::proofs::Texts::texts))]
pub fn same(a: &[u8], b: &[u8]) -> bool
    ensures { result ≡ alike a.now b.now }
{
    a == b
}

// The first word of a text.
#[tactic(auto, using(crate::proofs::Texts::texts))]
pub fn first(s: &[u8]) -> &[u8]
    ensures { result.now ≡ first_of s.now }
{
    &s[..find(s, 0, b' ')]
}

// What follows it.
#[tactic(auto, using(crate::proofs::Texts::texts))]
pub fn rest(s: &[u8]) -> &[u8]
    ensures { result.now ≡ rest_of s.now }
{
    &s[skip(s, find(s, 0, b' '), b' ')..]
}

// The number that the first word spells.
pub fn argument(s: &[u8], missing: Why) -> Result<u64, Wrong<'_>>
    ensures { told result ≡ argument_of missing s.now }
{
    let word = first(s);
    let why = match number(word) {
        Ok(n) => return Ok(n),
        Err(NumberError::Empty) => missing,
        Err(NumberError::Foreign) => Why::NoNumber,
        Err(NumberError::Large) => Why::Large,
    };
    Err(Wrong::new(why, word))
}

// The same of the line's last word.
#[tactic(auto, unfolding(crate::specs::Words::last_of))]
pub fn last(s: &[u8], missing: Why) -> Result<u64, Wrong<'_>>
    ensures { told result ≡ last_of missing s.now }
{
    let n = argument(s, missing)?;
    let more = rest(s);
    if !more.is_empty() {
        return Err(Wrong::new(Why::TooMuch, more));
    }
    Ok(n)
}
