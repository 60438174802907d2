// An angle of kind 154: i(32), held to a range.
ghost use Rattle.std.specs.Prelude.{◌≡◌};
ghost use Rattle.bits.specs.Answers.{out_of};
ghost use Rattle.bits.specs.Bits.{Payload};
ghost use Rattle.format.specs.Reading.{run_at};
ghost use Rattle.format.specs.Syntax.{i32 as signed32, between};

use bits::cursor::Cursor;
use bits::element::{signed, u};
use bits::read::Reading;
use bits::refusal::Refusal;

// An angle from `least` to `most`, both included.
#[inline(always)]
#[tactic(auto, using(format::proofs::Steps::reading), unfolding(format::specs::Syntax::i32))]
pub(crate) fn angle(s: &[u8], c: Cursor, least: i32, most: i32) -> Reading<i32>
    requires { Payload s.now }
    ensures { out_of result ≡ run_at (signed32 (between least most)) s.now c.at }
{
    let (coded, next) = u(s, c, 32)?;
    let value = signed(coded);
    if !(least..=most).contains(&value) {
        return Err(Refusal::rule(c));
    }
    Ok((value, next))
}
