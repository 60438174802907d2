// Numbers m × 2^k and m / 2^k in decimal, to the last digit.
ghost use Rattle.std.specs.Prelude.{◌≡◌, ◌^◌, ◌≤◌, ◌<◌};

use print::Out;

// 2^k.
pub(crate) fn power(k: u64) -> u64
    requires { k ≤ 62 }
    ensures { (result ≡ 2 ^ k) × (0 < result) × (result ≤ 4611686018427387904) }
{
    1 << k
}

// The digits of rest / parts, parts being a power of two: ten times a half is five times the whole.
fn digits(out: &mut Out, mut rest: u64, mut parts: u64)
    requires { (rest < parts) × (rest ≤ 2305843009213693952) × (parts ≤ 4611686018427387904) }
{
    while 0 < rest {
        parts /= 2;
        rest *= 5;
        out.number(rest / parts);
        rest %= parts;
    }
}

// n / parts, parts being a power of two.
pub(crate) fn decimal(out: &mut Out, n: u64, parts: u64)
    requires { (n ≤ 2305843009213693952) × (0 < parts) × (parts ≤ 4611686018427387904) }
{
    out.number(n / parts);
    let rest = n % parts;
    if 0 < rest {
        out.text(".");
        digits(out, rest, parts);
    }
}

// Fifteen digits: two such numbers have room for all below 10^30, and so for all below 2^96.
const LIMB: u64 = 1000000000000000;

// m × 2^k, which is below 10^30.
pub(crate) fn multiple(out: &mut Out, m: u64, k: u64)
    requires { m < 1000000000000000 }
{
    let mut high = 0;
    let mut low = m;
    for _ in 0..k {
        high = (2 * high + 2 * low / LIMB) % LIMB;
        low = 2 * low % LIMB;
    }
    if high == 0 {
        out.number(low);
    } else {
        out.number(high);
        out.padded(low);
    }
}
