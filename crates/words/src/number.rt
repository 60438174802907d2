// Decimal numbers. One that does not fit 64 bits is none.
ghost use Rattle.std.specs.Prelude.{◌≡◌};
ghost use Rattle.words.specs.Number.{with_digit, number_of};

// Why a text is no number.
#[derive(Clone, Copy, Debug, PartialEq, Eq)]
pub enum NumberError {
    // There is nothing.
    Empty,
    // There is a character that is no digit.
    Foreign,
    // It does not fit 64 bits.
    Large,
}

// The number with one digit more.
fn with_digit(v: u64, b: u8) -> Result<u64, NumberError>
    ensures { result ≡ with_digit v b }
{
    if !b.is_ascii_digit() {
        return Err(NumberError::Foreign);
    }
    let tens = v.checked_mul(10).ok_or(NumberError::Large)?;
    tens.checked_add(u64::from(b - b'0'))
        .ok_or(NumberError::Large)
}

#[tactic(auto, using(crate::proofs::Digits::steps), unfolding(crate::specs::Number::onward))]
pub fn number(s: &[u8]) -> Result<u64, NumberError>
    ensures { result ≡ number_of s.now }
{
    if s.is_empty() {
        return Err(NumberError::Empty);
    }
    let mut v = 0;
    for b in s {
        v = with_digit(v, *b)?;
    }
    Ok(v)
}
