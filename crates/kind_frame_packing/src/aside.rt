// Which messages of kind 45 are set aside: RULES 9. A reader asks this of a message that it has otherwise taken.
ghost use Rattle.std.specs.Prelude.{◌≡◌};
ghost use Rattle.kind_frame_packing.specs.SetAside.{reserved_id, reserved_type, set_aside};

use crate::FramePacking;

#[tactic(auto, unfolding(crate::specs::SetAside::reserved_id))]
fn reserved_id(fp_arrangement_id: u32) -> bool
    ensures { result ≡ reserved_id fp_arrangement_id }
{
    matches!(fp_arrangement_id, 256..=511 | 2_147_483_648..)
}

#[tactic(auto, unfolding(crate::specs::SetAside::reserved_type))]
fn reserved_type(fp_arrangement_type: u8) -> bool
    ensures { result ≡ reserved_type fp_arrangement_type }
{
    !matches!(fp_arrangement_type, 3 | 4 | 5)
}

// A cancel is set aside for its id alone: it has no type.
#[tactic(auto, unfolding(crate::specs::SetAside::set_aside, crate::specs::SetAside::reserved_interpretation))]
pub fn set_aside(p: FramePacking) -> bool
    ensures { result ≡ set_aside p }
{
    reserved_id(p.fp_arrangement_id)
        || (p.fp_arrangement_cancel_flag == 0
            && (reserved_type(p.layout.fp_arrangement_type)
                || 2 < p.layout.fp_content_interpretation_type))
}
