// One line of a script: the call that it spells.
ghost use Rattle.std.specs.Prelude.{◌≡◌};
ghost use Rattle.lent.specs.Lent.{left};
ghost use Rattle.script.specs.Words.{told};
ghost use Rattle.script.specs.Line.{table_of, feed_of, help_of, spelled_of, unmarked_of, said_of, call_of};

use crate::argument::{argument, first, last, rest};
use crate::call::Call;
use crate::input::{Input, LINE};
use crate::name::Name;
use crate::payload::payload;
use crate::wrong;
use crate::wrong::{Why, Wrong};
use lent::front;
use print::Out;
use words::place::content;

// More than a payload may have, so that its refusal can be seen.
pub const BYTES: usize = 10000;

#[tactic(auto, unfolding(crate::specs::Line::table_of))]
fn table(s: &[u8]) -> Result<Call, Wrong<'_>>
    ensures { told result ≡ table_of s.now }
{
    let slot = argument(s, Why::NoSlot)?;
    let n = last(rest(s), Why::NoCount)?;
    Ok(Call::Table(slot, n))
}

#[tactic(auto, unfolding(crate::specs::Line::feed_of))]
fn feed<'a>(s: &'a [u8], out: &mut [u8]) -> Result<Call, Wrong<'a>>
    ensures { left (told result) out.new ≡ feed_of s.now out.old }
{
    let slot = argument(s, Why::NoSlot)?;
    let fed = payload(rest(s), out)?;
    Ok(Call::Feed(slot, fed))
}

// Help is asked for alone.
#[tactic(auto, unfolding(crate::specs::Line::help_of))]
fn help(s: &[u8]) -> Result<Call, Wrong<'_>>
    ensures { told result ≡ help_of s.now }
{
    if !s.is_empty() {
        return Err(Wrong::new(Why::TooMuch, s));
    }
    Ok(Call::Help)
}

// The call of a line that is not empty.
#[tactic(auto, unfolding(crate::specs::Line::spelled_of))]
fn spelled<'a>(s: &'a [u8], out: &mut [u8]) -> Result<Call, Wrong<'a>>
    ensures { left (told result) out.new ≡ spelled_of s.now out.old }
{
    let word = first(s);
    let after = rest(s);
    match Name::of(word) {
        Some(Name::Open) => Ok(Call::Open(last(after, Why::NoSlot)?)),
        Some(Name::Close) => Ok(Call::Close(last(after, Why::NoSlot)?)),
        Some(Name::Sequence) => Ok(Call::Sequence(last(after, Why::NoSlot)?)),
        Some(Name::Picture) => Ok(Call::Picture(last(after, Why::NoSlot)?)),
        Some(Name::Table) => table(after),
        Some(Name::Feed) => feed(after, out),
        Some(Name::Read) => Ok(Call::Read(payload(after, out)?)),
        Some(Name::Explain) => Ok(Call::Explain(payload(after, out)?)),
        Some(Name::Help) => help(after),
        None => Err(Wrong::new(Why::NoCall, word)),
    }
}

// A line without the byte order mark that a script may start with.
#[tactic(auto, using(crate::proofs::Texts::texts), unfolding(crate::specs::Line::unmarked_of))]
fn unmarked(line: u64, s: &[u8]) -> &[u8]
    ensures { result.now ≡ unmarked_of line s.now }
{
    if line != 1 {
        return s;
    }
    s.strip_prefix(b"\xEF\xBB\xBF").unwrap_or(s)
}

// What a line says.
#[tactic(auto, unfolding(crate::specs::Line::said_of))]
pub fn said(input: Input, line: &[u8; LINE]) -> &[u8]
    ensures { result.now ≡ said_of input.line input.length line.now }
{
    content(unmarked(input.line, front(line, input.length)))
}

// The call that a line spells, and its bytes, which are lent. Of a line that says nothing there is none, nor of a wrong one, of which it is said
// what is wrong.
#[tactic(auto, using(crate::proofs::Said::nothing), unfolding(crate::specs::Line::call_of))]
pub fn call(to: &mut Out, input: Input, line: &[u8; LINE], out: &mut [u8; BYTES]) -> Option<Call>
    ensures { left result out.new ≡ call_of input.line input.length line.now out.old }
{
    if LINE <= input.length {
        wrong::long(to, input.line);
        return None;
    }
    let s = said(input, line);
    if s.is_empty() {
        return None;
    }
    match spelled(s, out) {
        Ok(call) => Some(call),
        Err(wrong) => {
            wrong.say(to, input.line, Name::of(first(s)));
            None
        }
    }
}
