// Depth numbers: "Each of the four is absent, unspecified, or a number."
// The bits are worked out in integers, and the float is read off them, so the two cannot differ.
ghost use Rattle.std.specs.Prelude.{◌≡◌, ◌<◌, ◌^◌};
ghost use Rattle.numbers.specs.Floats.{pattern, lead};
ghost use Rattle.numbers.specs.Depth.{DepthElement, Mantissa, depth_bits, coded_bits, depth_number};

// "Exponent 127 is unspecified."
const UNSPECIFIED: u8 = 127;

// "Zero is always positive zero": all 64 bits are 0.
const POSITIVE_ZERO: u64 = 0;

// What a depth element stands for. `Absent` is the caller's to say, by the element's flag.
#[derive(Clone, Copy)]
pub enum DepthNumber {
    Absent,
    Unspecified,
    Number(f64),
}

// The number that a depth element's parts stand for.
pub fn depth_number(sign: u8, exponent: u8, length_minus1: u8, mantissa: u32) -> DepthNumber
    requires { DepthElement sign exponent length_minus1 mantissa }
    ensures { result ≡ depth_number sign exponent length_minus1 mantissa }
{
    if exponent == UNSPECIFIED {
        return DepthNumber::Unspecified;
    }
    let bits = depth_bits(sign, exponent, length_minus1, mantissa);
    DepthNumber::Number(f64::from_bits(bits))
}

// The 64 bits of that number, and 0 where it is unspecified.
pub fn depth_bits(sign: u8, exponent: u8, length_minus1: u8, mantissa: u32) -> u64
    requires { DepthElement sign exponent length_minus1 mantissa }
    ensures { result ≡ coded_bits sign exponent length_minus1 mantissa }
{
    if exponent == UNSPECIFIED {
        return 0;
    }
    let s = sign as u64;
    let e = exponent as u64;
    let v = length_minus1 as u64 + 1;
    let n = mantissa as u64;
    if e == 0 {
        return small_bits(s, v, n);
    }
    normal_bits(s, e, v, n)
}

// "For e ≥ 1 its exponent field is e + 992 and its fraction field n × 2^(52-v)."
fn normal_bits(s: u64, e: u64, v: u64, n: u64) -> u64
    requires { Mantissa s v n × (0 < e) × (e < 127) }
    ensures { result ≡ depth_bits s e v n }
{
    fields(s, e + 992, n << (52 - v))
}

// "For e = 0 and n > 0, with 2^k ≤ n < 2^(k+1), they are 993 - v + k and (n - 2^k) × 2^(52-k)."
fn small_bits(s: u64, v: u64, n: u64) -> u64
    requires { Mantissa s v n }
    ensures { result ≡ depth_bits s 0 v n }
{
    if n == 0 {
        return POSITIVE_ZERO;
    }
    let k = top_bit(n);
    fields(s, 993 - v + k, (n - (1 << k)) << (52 - k))
}

// The k with 2^k ≤ n < 2^(k+1): the place of n's highest one bit.
fn top_bit(n: u64) -> u64
    requires { 0 < n }
    ensures { result ≡ lead n }
{
    63 - (u64::leading_zeros(n) as u64)
}

// A float's 64 bits: the sign bit, 11 bits of exponent field, 52 of fraction field. (At 2047 they would be no number's.)
fn fields(sign: u64, exponent: u64, fraction: u64) -> u64
    requires { (sign < 2) × (exponent < 2047) × (fraction < 2 ^ 52) }
    ensures { result ≡ pattern sign exponent fraction }
{
    sign * 0x8000_0000_0000_0000 + (exponent * 0x10_0000_0000_0000 + fraction)
}
