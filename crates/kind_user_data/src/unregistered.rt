// Kind 5, unregistered user data: the record of its head, and its reader.
ghost use Rattle.std.specs.Prelude.{◌≡◌};
ghost use Rattle.bits.specs.Answers.{out_of};
ghost use Rattle.bits.specs.Bits.{Payload};
ghost use Rattle.format.specs.Format.{zeros};
ghost use Rattle.format.specs.Reading.{run_at};
ghost use Rattle.kind_user_data.specs.Unregistered.{table, unregistered};

use bits::cursor::Cursor;
use bits::identifier::identifier;
use bits::read::Reading;

#[derive(Clone, Copy, Default)]
pub struct Unregistered {
    pub uuid_iso_iec_11578: [u8; 16],
}

impl Unregistered {
    // The record of zeros.
    #[tactic(auto, unfolding(bits::specs::Identifier::bytes_of))]
    pub fn zero() -> Unregistered
        ensures { result ≡ zeros table }
    {
        Unregistered::default()
    }
}

#[tactic(auto, using(format::proofs::Steps::reading), unfolding(crate::specs::Unregistered::unregistered))]
pub fn read(s: &[u8], c: Cursor) -> Reading<Unregistered>
    requires { Payload s.now }
    ensures { out_of result ≡ run_at unregistered s.now c.at }
{
    let (uuid_iso_iec_11578, c) = identifier(s, c)?;
    Ok((Unregistered { uuid_iso_iec_11578 }, c))
}
