// A ue(v) with a largest value.
ghost use Rattle.std.specs.Prelude.{◌≡◌, ◌<◌, ◌^◌};
ghost use Rattle.bits.specs.Bits.{Payload};
ghost use Rattle.bits.specs.Answers.{out_by};
ghost use Rattle.format.specs.Reading.{element_at};
ghost use Rattle.format.specs.Syntax.{ue as coded, ◌must◌, at_most};

use bits::cursor::Cursor;
use bits::element::ue;
use bits::read::Reading;
use bits::refusal::Refusal;
use bits::unsigned::Unsigned;

#[tactic(auto, using(crate::proofs::ReaderLaws::one_judged))]
pub fn at_most<T: Unsigned>(s: &[u8], c: Cursor, most: u32) -> Reading<T>
    requires { Payload s.now × (most < 2 ^ T.room) }
    ensures { out_by T.number result ≡ element_at (coded must at_most most) s.now c.at }
{
    let (v, next) = ue(s, c)?;
    if most < v {
        return Err(Refusal::rule(c));
    }
    Ok((T::of(v), next))
}
