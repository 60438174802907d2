// The identifier of kind 5: one element of 128 bits. It is handed out as 16 bytes.
ghost use Rattle.std.specs.Prelude.{◌≡◌, ◌-◌, ◌≤◌};
ghost use Rattle.bits.specs.Bits.{Payload, bits_in, part, unsigned_of};
ghost use Rattle.bits.specs.Elements.{u_at};
ghost use Rattle.bits.specs.Answers.{out_of};
ghost use Rattle.bits.specs.Identifier.{bytes_of, identifier_of};

use crate::cursor::Cursor;
use crate::element::{remaining, unsigned};
use crate::read::Reading;
use crate::refusal::Refusal;

// The 16 bytes from a position on, all of which are there.
fn bytes_at(s: &[u8], at: usize) -> [u8; 16]
    requires { Payload s.now × (128 ≤ bits_in s.now - at) }
    ensures { result ≡ bytes_of 16 (unsigned_of (part s.now at 128)) }
{
    let mut bytes = [0u8; 16];
    for i in 0..16 {
        bytes[i] = unsigned(s, at + 8 * i, 8) as u8;
    }
    bytes
}

pub fn identifier(s: &[u8], c: Cursor) -> Reading<[u8; 16]>
    requires { Payload s.now }
    ensures { out_of result ≡ identifier_of (u_at s.now c.at 128) }
{
    let at = c.at;
    if remaining(s, at) < 128 {
        return Err(Refusal::Short);
    }
    Ok((bytes_at(s, at), Cursor { at: at + 128 }))
}
