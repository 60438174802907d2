// Bytes in hex.
ghost use Rattle.std.specs.Prelude.{◌≡◌, ◌<◌, length, drop, IfSome};
ghost use Rattle.lent.specs.Lent.{left};
ghost use Rattle.words.specs.Hex.{digit_of, lone_of, pair_of, marked, spelling, into};

// Why a text spells no bytes.
#[derive(Clone, Copy, Debug, PartialEq, Eq)]
pub enum HexError {
    // A digit without its second.
    Odd,
    // A character that is no hex digit, and its place.
    Foreign(usize),
    // There is no room for them.
    Long,
}

// A digit's value.
#[tactic(auto, unfolding(crate::specs::Hex::digit_of))]
fn digit(b: u8) -> Option<u8>
    ensures value { result ≡ digit_of b }
    ensures upper_bound { IfSome result (λ d. d < 16) }
{
    match b {
        b'0'..=b'9' => Some(b - b'0'),
        b'A'..=b'F' => Some(b - b'A' + 10),
        b'a'..=b'f' => Some(b - b'a' + 10),
        _ => None,
    }
}

// What is wrong with a, at i, which no second digit follows.
#[tactic(auto, unfolding(crate::specs::Hex::lone_of, crate::specs::Hex::unpaired))]
fn lone(i: usize, a: u8) -> HexError
    ensures { result ≡ lone_of i a }
{
    match digit(a) {
        Some(_) => HexError::Odd,
        None => HexError::Foreign(i),
    }
}

// The byte whose digits are a, at i, and b after it.
#[tactic(auto, unfolding(crate::specs::Hex::pair_of, crate::specs::Hex::byte_of))]
fn pair(i: usize, a: u8, b: u8) -> Result<u8, HexError>
    requires { i < 18446744073709551615 }
    ensures { result ≡ pair_of i a b }
{
    if b == b' ' {
        return Err(lone(i, a));
    }
    let high = digit(a).ok_or(HexError::Foreign(i))?;
    let low = digit(b).ok_or(HexError::Foreign(i + 1))?;
    Ok(high * 16 + low)
}

// How many characters `0x` and `0X` have.
const MARK: usize = 2;

// Whether a text starts with `0x` or `0X`, and something else than a space follows.
#[tactic(auto, unfolding(crate::specs::Hex::marked))]
fn is_marked(s: &[u8]) -> bool
    ensures { result ≡ marked s.now }
{
    match s {
        [b'0', b'x' | b'X', next, ..] => *next != b' ',
        _ => false,
    }
}

// The bytes that a text spells; there may be spaces between them, and `0x` before each.
#[tactic(auto, using(crate::proofs::Spellings::steps))]
pub fn bytes(s: &[u8], out: &mut [u8]) -> Result<usize, HexError>
    ensures { left result out.new ≡ into out.old (spelling 0 0 s.now) }
{
    let mut i = 0;
    let mut n = 0;
    while i < s.len() {
        if s[i] == b' ' {
            i += 1;
        } else if s.len() - i < 2 {
            return Err(lone(i, s[i]));
        } else if is_marked(&s[i..]) {
            i += MARK;
        } else {
            let b = pair(i, s[i], s[i + 1])?;
            if out.len() <= n {
                return Err(HexError::Long);
            }
            out[n] = b;
            n += 1;
            i += 2;
        }
    }
    Ok(n)
}
