// Guard band types of kinds 150 and 155: 0 to 3, and 4 to 7, which are reserved and read as 0.
ghost use Rattle.std.specs.Prelude.{◌<◌};

// How a type n is coded: by three bits of the first two of these bytes, of which so many lie below them. Where 0 was handed out and the bytes are not
// there, it cannot be told.
pub(crate) fn code(n: u64, bytes: &[u8], below: u64) -> Option<u64>
    requires { below < 16 }
{
    if n != 0 {
        return Some(n);
    }
    match bytes {
        [high, low, ..] => Some(((256 * u64::from(*high) + u64::from(*low)) >> below) % 8),
        _ => None,
    }
}

// The code of a reserved type.
pub(crate) fn reserved(code: Option<u64>) -> Option<u64> {
    code.filter(|code| matches!(*code, 4..=7))
}

pub(crate) fn meaning(code: Option<u64>) -> &'static str {
    match code {
        Some(0) => "content unknown",
        Some(1) => "enough content to interpolate between samples",
        Some(2) => "picture content, its quality changing towards the neighbour's",
        Some(3) => "picture content of like quality",
        Some(4) => "coded 4, which is reserved; content unknown",
        Some(5) => "coded 5, which is reserved; content unknown",
        Some(6) => "coded 6, which is reserved; content unknown",
        Some(7) => "coded 7, which is reserved; content unknown",
        _ => "content unknown, or coded as 4 to 7",
    }
}
