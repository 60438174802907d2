// User data: what follows the head of a payload of kind 4 or 5 is handed back as that part of the caller's bytes.
ghost use Rattle.std.specs.Prelude.{◌≡◌};
ghost use Rattle.reader.specs.User.{user_part};

use crate::brief::brief;

// The part ends with the payload, not with the lent bytes.
pub fn user_part(kind: u64, size: u64, bytes: &[u8]) -> &[u8]
    ensures { result.now ≡ user_part kind size bytes.now }
{
    match brief(kind, size, bytes).rest {
        Some(start) => &bytes[start..size as usize],
        None => &bytes[..0],
    }
}
