// u(n), ue(v) and i(32).
ghost use Rattle.std.specs.Prelude.{◌≡◌, ◌+◌, ◌-◌, ◌*◌, ◌≤◌, ◌<◌, length};
ghost use Rattle.bits.specs.Bits.{Payload, bits_in, part, from, unsigned_of};
ghost use Rattle.bits.specs.Elements.{leading, u_at, ue_at};
ghost use Rattle.bits.specs.Answers.{out_of, out_by};
ghost use Rattle.bits.specs.Signed.{signed_of};

use crate::cursor::Cursor;
use crate::read::Reading;
use crate::refusal::Refusal;
use crate::unsigned::Unsigned;

// How many bits there are from a position on.
pub(crate) fn remaining(s: &[u8], at: usize) -> usize
    requires { Payload s.now }
    ensures { result ≡ bits_in s.now - at }
{
    let end = 8 * s.len();
    if at < end { end - at } else { 0 }
}

// The number that two bytes make, both of which are there.
fn pair(s: &[u8], k: usize) -> u16
    requires { k + 1 < length s.now }
    ensures { result ≡ unsigned_of (part s.now (8 * k) 16) }
{
    let high = s[k] as u16;
    let low = s[k + 1] as u16;
    high * 256 + low
}

// The number that at most 8 bits make, all of which are there: they lie in one byte, or in two.
fn narrow(s: &[u8], at: usize, n: usize) -> u8
    requires { (n ≤ bits_in s.now - at) × (n ≤ 8) }
    ensures { result ≡ unsigned_of (part s.now at n) }
{
    if n == 0 {
        return 0;
    }
    let before = at % 8;
    if before + n <= 8 {
        return (s[at / 8] << before) >> (8 - n);
    }
    ((pair(s, at / 8) << before) >> (16 - n)) as u8
}

// The same of at most 16 bits: more than 8 lie in two bytes, or in three.
fn half(s: &[u8], at: usize, n: usize) -> u16
    requires { (n ≤ bits_in s.now - at) × (n ≤ 16) }
    ensures { result ≡ unsigned_of (part s.now at n) }
{
    if n <= 8 {
        return narrow(s, at, n) as u16;
    }
    let first = at / 8;
    let before = at % 8;
    let two = pair(s, first);
    if before + n <= 16 {
        return (two << before) >> (16 - n);
    }
    let three = two as u32 * 256 + s[first + 2] as u32;
    ((three << (8 + before)) >> (32 - n)) as u16
}

// The same of 25 to 32 bits, which lie in four bytes, or in five.
fn wide(s: &[u8], at: usize, n: usize) -> u32
    requires { (n ≤ bits_in s.now - at) × (24 < n) × (n ≤ 32) }
    ensures { result ≡ unsigned_of (part s.now at n) }
{
    let first = at / 8;
    let before = at % 8;
    let four = pair(s, first) as u32 * 65536 + pair(s, first + 2) as u32;
    if before + n <= 32 {
        return (four << before) >> (32 - n);
    }
    let five = four as u64 * 256 + s[first + 4] as u64;
    ((five << (24 + before)) >> (64 - n)) as u32
}

// The number that n bits make, all of which are there.
pub(crate) fn unsigned(s: &[u8], at: usize, n: usize) -> u32
    requires { Payload s.now × (n ≤ bits_in s.now - at) × (n ≤ 32) }
    ensures { result ≡ unsigned_of (part s.now at n) }
{
    if n <= 16 {
        return half(s, at, n) as u32;
    }
    if 24 < n {
        return wide(s, at, n);
    }
    let high = n - 16;
    half(s, at, high) as u32 * 65536 + half(s, at + high, 16) as u32
}

// u(n): n unsigned bits. A reader calls it at each element, most often with a constant n: as a part of its caller it is the few steps of that n.
#[inline(always)]
pub fn u<T: Unsigned>(s: &[u8], c: Cursor, n: u32) -> Reading<T>
    requires { Payload s.now × (n ≤ T.room) }
    ensures { out_by T.number result ≡ u_at s.now c.at n }
{
    let at = c.at;
    let width = n as usize;
    if remaining(s, at) < width {
        return Err(Refusal::Short);
    }
    Ok((T::of(unsigned(s, at, width)), Cursor { at: at + width }))
}

// The zero bits from a position on, up to the first one, the payload's end or the 32nd.
fn zeros(s: &[u8], at: usize) -> u32
    requires { Payload s.now }
    ensures { result ≡ leading 32 (from s.now at) }
{
    let rest = remaining(s, at);
    if rest < 32 {
        return u32::leading_zeros(unsigned(s, at, rest)) - (32 - rest) as u32;
    }
    u32::leading_zeros(unsigned(s, at, 32))
}

// ue(v): z zeros, a one and z bits. The one and the z bits make one more than the meaning.
pub fn ue(s: &[u8], c: Cursor) -> Reading<u32>
    requires { Payload s.now }
    ensures { out_of result ≡ ue_at s.now c.at }
{
    let at = c.at;
    let z = zeros(s, at);
    if z == 32 {
        return Err(Refusal::Zeros);
    }
    let one = Cursor {
        at: at + z as usize,
    };
    let (x, next) = u::<u32>(s, one, z + 1)?;
    Ok((x - 1, next))
}

// i(32): the number whose two's complement in 32 bits was read.
pub fn signed(coded: u32) -> i32
    ensures { result ≡ signed_of coded }
{
    if coded < 2147483648 {
        coded as i32
    } else {
        !((!coded) as i32)
    }
}
