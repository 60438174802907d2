// Kind 150, equirectangular projection: its record and its reader.
#![tactic(auto)]

ghost use Rattle.std.specs.Prelude.{◌≡◌};
ghost use Rattle.bits.specs.Answers.{out_of};
ghost use Rattle.bits.specs.Bits.{Payload};
ghost use Rattle.format.specs.Format.{zeros};
ghost use Rattle.format.specs.Reading.{run_at};
ghost use Rattle.kind_equirectangular.specs.Equirectangular.{table, equirectangular};

use bits::cursor::Cursor;
use bits::element::u;
use bits::read::Reading;
use format::guard::guard_type;

#[repr(C)]
#[derive(Clone, Copy, Default)]
pub struct Equirectangular {
    pub erp_cancel_flag: u8,
    pub erp_persistence_flag: u8,
    pub erp_guard_band_flag: u8,
    // Reserved types, 4 to 7, are 0 here: RULES 3.
    pub erp_guard_band_type: u8,
    pub erp_left_guard_band_width: u8,
    pub erp_right_guard_band_width: u8,
}

impl Equirectangular {
    // The record of zeros.
    pub fn zero() -> Equirectangular
        ensures { result ≡ zeros table }
    {
        Equirectangular::default()
    }
}

#[tactic(auto, using(crate::proofs::Steps::steps), unfolding(crate::specs::Equirectangular::equirectangular))]
pub fn read(s: &[u8], c: Cursor) -> Reading<Equirectangular>
    requires { Payload s.now }
    ensures { out_of result ≡ run_at equirectangular s.now c.at }
{
    let (erp_cancel_flag, c) = u(s, c, 1)?;
    if erp_cancel_flag != 0 {
        let cancelled = Equirectangular {
            erp_cancel_flag,
            ..Equirectangular::default()
        };
        return Ok((cancelled, c));
    }
    let (erp_persistence_flag, c) = u(s, c, 1)?;
    let (erp_guard_band_flag, c) = u(s, c, 1)?;
    // erp_reserved_zero_2bits
    let (_, c) = u::<u8>(s, c, 2)?;
    if erp_guard_band_flag != 1 {
        let unguarded = Equirectangular {
            erp_cancel_flag,
            erp_persistence_flag,
            erp_guard_band_flag,
            ..Equirectangular::default()
        };
        return Ok((unguarded, c));
    }
    // RULES 8 judges guard types of kind 155 alone: every code is fine here.
    let (erp_guard_band_type, c) = guard_type(s, c, 1)?;
    let (erp_left_guard_band_width, c) = u(s, c, 8)?;
    let (erp_right_guard_band_width, c) = u(s, c, 8)?;
    let equirectangular = Equirectangular {
        erp_cancel_flag,
        erp_persistence_flag,
        erp_guard_band_flag,
        erp_guard_band_type,
        erp_left_guard_band_width,
        erp_right_guard_band_width,
    };
    Ok((equirectangular, c))
}
