// The payload of a line: its kind, its stated size, and its bytes.
ghost use Rattle.std.specs.Prelude.{◌≡◌};
ghost use Rattle.lent.specs.Lent.{left};
ghost use Rattle.script.specs.Words.{told};
ghost use Rattle.script.specs.Payload.{unspelled_of, plain_of, stated_of, payload_of};

use crate::argument::{argument, rest};
use crate::call::Payload;
use crate::wrong::{Why, Wrong};
use words::hex::{HexError, bytes};

// What is wrong with a text that spells no bytes.
fn unspelled(e: HexError, s: &[u8]) -> Wrong<'_>
    ensures { result.why ≡ unspelled_of e }
{
    match e {
        HexError::Odd => Wrong::new(Why::Odd, b""),
        HexError::Long => Wrong::new(Why::Long, b""),
        HexError::Foreign(i) => Wrong::new(Why::NoHex, s.get(i..).unwrap_or(b"")),
    }
}

// Bytes alone: their count is the size.
#[tactic(auto, unfolding(crate::specs::Payload::plain_of))]
fn plain<'a>(kind: u64, s: &'a [u8], out: &mut [u8]) -> Result<Payload, Wrong<'a>>
    ensures { left (told result) out.new ≡ plain_of kind s.now out.old }
{
    match bytes(s, out) {
        Ok(count) => Ok(Payload {
            kind,
            size: count as u64,
            count,
        }),
        Err(e) => Err(unspelled(e, s)),
    }
}

// The size, and then the bytes.
#[tactic(auto, unfolding(crate::specs::Payload::stated_of))]
fn stated<'a>(kind: u64, s: &'a [u8], out: &mut [u8]) -> Result<Payload, Wrong<'a>>
    ensures { left (told result) out.new ≡ stated_of kind s.now out.old }
{
    let size = argument(s, Why::NoSize)?;
    let payload = plain(kind, rest(s), out)?;
    Ok(Payload { size, ..payload })
}

#[tactic(auto, using(crate::proofs::Texts::texts), unfolding(crate::specs::Payload::payload_of, crate::specs::Payload::bytes_of))]
pub fn payload<'a>(s: &'a [u8], out: &mut [u8]) -> Result<Payload, Wrong<'a>>
    ensures { left (told result) out.new ≡ payload_of s.now out.old }
{
    let kind = argument(s, Why::NoKind)?;
    let after = rest(s);
    match after.strip_prefix(b"size=") {
        Some(sized) => stated(kind, sized, out),
        None => plain(kind, after, out),
    }
}
