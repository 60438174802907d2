// Guard band types, of kinds 150 and 155.
ghost use Rattle.std.specs.Prelude.{◌≡◌};
ghost use Rattle.bits.specs.Bits.{Payload};
ghost use Rattle.bits.specs.Answers.{out_of};
ghost use Rattle.format.specs.Reading.{element_at};
ghost use Rattle.format.specs.Syntax.{guard_type, ◌must◌, usable};

use bits::cursor::Cursor;
use bits::element::u;
use bits::read::Reading;
use bits::refusal::Refusal;

// A guard band type from 0 to 3; 0 for each reserved code. A coded 0 breaks the rule where not_used is 0.
#[inline(always)]
#[tactic(auto, using(crate::proofs::ReaderLaws::one_judged))]
pub fn guard_type(s: &[u8], c: Cursor, not_used: u8) -> Reading<u8>
    requires { Payload s.now }
    ensures { out_of result ≡ element_at (guard_type must usable not_used) s.now c.at }
{
    let (code, next) = u::<u8>(s, c, 3)?;
    if 4 <= code {
        return Ok((0, next));
    }
    if code == 0 && not_used != 1 {
        return Err(Refusal::rule(c));
    }
    Ok((code, next))
}
