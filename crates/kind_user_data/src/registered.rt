// Kind 4, user data registered by Rec. ITU-T T.35: the record of its head, and its reader.
ghost use Rattle.std.specs.Prelude.{◌≡◌};
ghost use Rattle.bits.specs.Answers.{out_of};
ghost use Rattle.bits.specs.Bits.{Payload};
ghost use Rattle.format.specs.Format.{zeros};
ghost use Rattle.format.specs.Reading.{run_at};
ghost use Rattle.kind_user_data.specs.Registered.{table, registered, head_bytes};

use bits::cursor::Cursor;
use bits::element::u;
use bits::read::Reading;

#[derive(Clone, Copy, Default)]
pub struct Registered {
    pub itu_t_t35_country_code: u8,
    // Coded only after the country code 255.
    pub itu_t_t35_country_code_extension_byte: u8,
}

impl Registered {
    // The record of zeros.
    pub fn zero() -> Registered
        ensures { result ≡ zeros table }
    {
        Registered::default()
    }

    // How many bytes the head takes: the country code is one, and one more where it is 255.
    pub fn head_bytes(self) -> usize
        ensures { result ≡ head_bytes self }
    {
        if self.itu_t_t35_country_code == 255 {
            2
        } else {
            1
        }
    }
}

#[tactic(auto, using(format::proofs::Steps::reading), unfolding(crate::specs::Registered::registered))]
pub fn read(s: &[u8], c: Cursor) -> Reading<Registered>
    requires { Payload s.now }
    ensures { out_of result ≡ run_at registered s.now c.at }
{
    let (itu_t_t35_country_code, c) = u(s, c, 8)?;
    let (itu_t_t35_country_code_extension_byte, c) = if itu_t_t35_country_code == 255 {
        u(s, c, 8)?
    } else {
        (0, c)
    };
    let head = Registered {
        itu_t_t35_country_code,
        itu_t_t35_country_code_extension_byte,
    };
    Ok((head, c))
}
