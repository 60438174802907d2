// The end of a payload, after its message.
ghost use Rattle.std.specs.Prelude.{◌≡◌};
ghost use Rattle.bits.specs.Bits.{Payload};
ghost use Rattle.bits.specs.Tail.{tail_at};

use crate::cursor::Cursor;
use crate::element::remaining;
use crate::refusal::Refusal;

// The end of a payload whose message ended before the cursor: the count of the extension's bits, 0 without a tail; or why the payload may not
// end so. The last one bit is looked for in the final byte.
#[tactic(auto, using(crate::proofs::TailLaws::tails))]
pub fn tail(s: &[u8], c: Cursor) -> Result<u32, Refusal>
    requires { Payload s.now }
    ensures { result ≡ tail_at s.now c.at }
{
    let rest = remaining(s, c.at);
    if rest == 0 {
        return Ok(0);
    }
    let zeros = u8::trailing_zeros(s[s.len() - 1]) as usize;
    // No one bit of the final byte comes after the message, or the byte has none.
    if rest <= zeros || zeros == 8 {
        return Err(Refusal::Tail);
    }
    Ok((rest - 1 - zeros) as u32)
}
