// The fields of each kind's record as numbers, after the extension count; and a message's, handed out to a lent row.
ghost use Rattle.std.specs.Prelude.{◌≡◌, ◌+◌, ◌*◌, ◌≤◌, ◌∷◌, [], length};
ghost use Rattle.std.proofs.lemmas.List.Edits.{sets};
ghost use Rattle.bits.specs.Signed.{twos_of};
ghost use Rattle.answers.specs.Listed.{nothing};
ghost use Rattle.answers.specs.Answer.{outcome_number};
ghost use Rattle.lent.specs.Lent.{left};
ghost use Rattle.record_row.specs.Handing.{wrote_by};
ghost use Rattle.record_row.specs.Fields.{frame_packing_fields, orientation_fields, equirectangular_fields, rotation_fields, alpha_fields, registered_fields, unregistered_fields, state_of, depth_bits_of, value_fields, depth_fields, region_fields, regions_fields, region_wise_fields, lasting_fields, passing_fields};

use crate::row::{Row, filled, hand};
use answers::Outcome;
use answers::kind::{LastingMessage, PassingMessage};
use kind_alpha::Alpha;
use kind_depth::element::DepthValue;
use kind_depth::{Depth, model};
use kind_equirectangular::Equirectangular;
use kind_frame_packing::FramePacking;
use kind_orientation::Orientation;
use kind_region_wise::region::Region;
use kind_region_wise::{MOST, RegionWise};
use kind_rotation::Rotation;
use kind_user_data::registered::Registered;
use kind_user_data::unregistered::Unregistered;
use lent::put;
use numbers::degrees::degree_bits;
use numbers::depth::{DepthNumber, depth_bits};

// Of a message that has no record.
impl Row for () {
    ghost fields = { λ _. [] };

    fn count(self) -> usize {
        0
    }

    fn put(self, row: &mut [u64], at: usize) {}
}

impl Row for FramePacking {
    ghost fields = { frame_packing_fields };

    fn count(self) -> usize {
        17
    }

    fn put(self, row: &mut [u64], at: usize) {
        let layout = self.layout;
        let flags = layout.flags;
        let grid = layout.grid;
        let fields = [
            u64::from(self.fp_arrangement_id),
            u64::from(self.fp_arrangement_cancel_flag),
            u64::from(layout.fp_arrangement_type),
            u64::from(layout.fp_quincunx_sampling_flag),
            u64::from(layout.fp_content_interpretation_type),
            u64::from(flags.fp_spatial_flipping_flag),
            u64::from(flags.fp_frame0_flipped_flag),
            u64::from(flags.fp_field_views_flag),
            u64::from(flags.fp_current_frame_is_frame0_flag),
            u64::from(flags.fp_frame0_self_contained_flag),
            u64::from(flags.fp_frame1_self_contained_flag),
            u64::from(grid.fp_frame0_grid_position_x),
            u64::from(grid.fp_frame0_grid_position_y),
            u64::from(grid.fp_frame1_grid_position_x),
            u64::from(grid.fp_frame1_grid_position_y),
            u64::from(layout.fp_arrangement_persistence_flag),
            u64::from(self.fp_upsampled_aspect_ratio_flag),
        ];
        put(row, at, &fields);
    }
}

pub fn frame_packing(extension: u32, a: FramePacking) -> [u64; 18]
    ensures { result ≡ extension ∷ frame_packing_fields a }
{
    filled::<_, 18>(extension, a)
}

impl Row for Orientation {
    ghost fields = { orientation_fields };

    fn count(self) -> usize {
        3
    }

    fn put(self, row: &mut [u64], at: usize) {
        let fields = [
            self.display_orientation_cancel_flag,
            self.display_orientation_persistence_flag,
            self.display_orientation_transform_type,
        ];
        put(row, at, &fields);
    }
}

pub fn orientation(extension: u32, a: Orientation) -> [u64; 4]
    ensures { result ≡ extension ∷ orientation_fields a }
{
    filled::<_, 4>(extension, a)
}

impl Row for Equirectangular {
    ghost fields = { equirectangular_fields };

    fn count(self) -> usize {
        6
    }

    fn put(self, row: &mut [u64], at: usize) {
        let fields = [
            self.erp_cancel_flag,
            self.erp_persistence_flag,
            self.erp_guard_band_flag,
            self.erp_guard_band_type,
            self.erp_left_guard_band_width,
            self.erp_right_guard_band_width,
        ];
        put(row, at, &fields);
    }
}

pub fn equirectangular(extension: u32, a: Equirectangular) -> [u64; 7]
    ensures { result ≡ extension ∷ equirectangular_fields a }
{
    filled::<_, 7>(extension, a)
}

// The 32 bits of a number in two's complement.
fn twos(c: i32) -> u64
    ensures { result ≡ twos_of c }
{
    u64::from(c.cast_unsigned())
}

impl Row for Rotation {
    ghost fields = { rotation_fields };

    fn count(self) -> usize {
        8
    }

    fn put(self, row: &mut [u64], at: usize) {
        let yaw = self.yaw_rotation;
        let pitch = self.pitch_rotation;
        let roll = self.roll_rotation;
        let fields = [
            u64::from(self.sphere_rotation_cancel_flag),
            u64::from(self.sphere_rotation_persistence_flag),
            twos(yaw),
            twos(pitch),
            twos(roll),
            degree_bits(yaw),
            degree_bits(pitch),
            degree_bits(roll),
        ];
        put(row, at, &fields);
    }
}

pub fn rotation(extension: u32, a: Rotation) -> [u64; 9]
    ensures { result ≡ extension ∷ rotation_fields a }
{
    filled::<_, 9>(extension, a)
}

impl Row for Alpha {
    ghost fields = { alpha_fields };

    fn count(self) -> usize {
        8
    }

    fn put(self, row: &mut [u64], at: usize) {
        let fields = [
            u64::from(self.alpha_channel_cancel_flag),
            u64::from(self.alpha_channel_use_idc),
            u64::from(self.alpha_channel_bit_depth_minus8),
            u64::from(self.alpha_transparent_value),
            u64::from(self.alpha_opaque_value),
            u64::from(self.alpha_channel_incr_flag),
            u64::from(self.alpha_channel_clip_flag),
            u64::from(self.alpha_channel_clip_type_flag),
        ];
        put(row, at, &fields);
    }
}

impl Row for Registered {
    ghost fields = { registered_fields };

    fn count(self) -> usize {
        2
    }

    fn put(self, row: &mut [u64], at: usize) {
        let fields = [
            self.itu_t_t35_country_code,
            self.itu_t_t35_country_code_extension_byte,
        ];
        put(row, at, &fields);
    }
}

fn state(n: DepthNumber) -> u64
    ensures { result ≡ state_of n }
{
    match n {
        DepthNumber::Absent => 0,
        DepthNumber::Unspecified => 1,
        DepthNumber::Number(_) => 2,
    }
}

// The 64 bits of the number that the parts stand for. Parts that no element codes stand for none.
fn number_bits(sign: u8, exponent: u8, length_minus1: u8, mantissa: u32) -> u64
    ensures { result ≡ depth_bits_of sign exponent length_minus1 mantissa }
{
    if sign < 2
        && exponent < 128
        && length_minus1 < 32
        && u64::from(mantissa) < 1 << (length_minus1 + 1)
    {
        return depth_bits(sign, exponent, length_minus1, mantissa);
    }
    0
}

impl Row for DepthValue {
    ghost fields = { value_fields };

    fn count(self) -> usize {
        6
    }

    fn put(self, row: &mut [u64], at: usize) {
        let sign = self.da_sign_flag;
        let exponent = self.da_exponent;
        let length_minus1 = self.da_mantissa_len_minus1;
        let mantissa = self.da_mantissa;
        let fields = [
            u64::from(sign),
            u64::from(exponent),
            u64::from(length_minus1),
            u64::from(mantissa),
            state(self.number),
            number_bits(sign, exponent, length_minus1, mantissa),
        ];
        put(row, at, &fields);
    }
}

// What stands before the list, every entry of which follows.
const BEFORE_MODEL: usize = 31;

// All of them, after the extension count.
pub const DEPTH_FIELDS: usize = 1 + BEFORE_MODEL + model::MOST;

impl Row for Depth {
    ghost fields = { depth_fields };

    fn count(self) -> usize {
        BEFORE_MODEL + model::MOST
    }

    fn put(self, row: &mut [u64], at: usize) {
        let presence = [
            u64::from(self.z_near_flag),
            u64::from(self.z_far_flag),
            u64::from(self.d_min_flag),
            u64::from(self.d_max_flag),
            u64::from(self.depth_representation_type),
            u64::from(self.disparity_ref_view_id),
        ];
        put(row, at, &presence);
        self.z_near.put(row, at + 6);
        self.z_far.put(row, at + 12);
        self.d_min.put(row, at + 18);
        self.d_max.put(row, at + 24);
        put(row, at + 30, &[self.count]);
        put(
            row,
            at + BEFORE_MODEL,
            &self.depth_nonlinear_representation_model,
        );
    }
}

impl Row for Unregistered {
    ghost fields = { unregistered_fields };

    fn count(self) -> usize {
        16
    }

    fn put(self, row: &mut [u64], at: usize) {
        put(row, at, &self.uuid_iso_iec_11578);
    }
}

const REGION_FIELDS: usize = 19;

impl Row for Region {
    ghost fields = { region_fields };

    fn count(self) -> usize {
        REGION_FIELDS
    }

    fn put(self, row: &mut [u64], at: usize) {
        let projected = self.projected;
        let packed = self.packed;
        let guard = self.guard;
        let types = guard.types;
        let fields = [
            u64::from(self.rwp_transform_type),
            u64::from(self.rwp_guard_band_flag),
            u64::from(projected.rwp_proj_region_width),
            u64::from(projected.rwp_proj_region_height),
            u64::from(projected.rwp_proj_region_top),
            u64::from(projected.rwp_proj_region_left),
            u64::from(packed.rwp_packed_region_width),
            u64::from(packed.rwp_packed_region_height),
            u64::from(packed.rwp_packed_region_top),
            u64::from(packed.rwp_packed_region_left),
            u64::from(guard.rwp_left_guard_band_width),
            u64::from(guard.rwp_right_guard_band_width),
            u64::from(guard.rwp_top_guard_band_height),
            u64::from(guard.rwp_bottom_guard_band_height),
            u64::from(guard.rwp_guard_band_not_used_for_pred_flag),
            u64::from(types.left),
            u64::from(types.right),
            u64::from(types.top),
            u64::from(types.bottom),
        ];
        put(row, at, &fields);
    }
}

// Those of one region after another.
#[tactic(auto, using(crate::proofs::RowLaws::fields_more))]
fn put_regions(row: &mut [u64], at: usize, regions: &[Region])
    requires { at + 19 * length regions.now ≤ length row.old }
    ensures { row.new ≡ sets row.old at (regions_fields regions.now) }
{
    for (i, r) in regions.iter().enumerate() {
        r.put(row, at + REGION_FIELDS * i);
    }
}

// What stands before the regions, every one of which follows.
const BEFORE_REGIONS: usize = 8;

// All of them, after the extension count.
pub const REGION_WISE_FIELDS: usize = 1 + BEFORE_REGIONS + REGION_FIELDS * MOST;

// Straight into a lent row: an array of them on the way would be the largest thing on the stack.
impl Row for RegionWise {
    ghost fields = { region_wise_fields };

    #[tactic(auto, using(crate::proofs::RowLaws::fields_length))]
    fn count(self) -> usize {
        REGION_WISE_FIELDS - 1
    }

    #[tactic(auto, using(crate::proofs::RowLaws::fields_length))]
    fn put(self, row: &mut [u64], at: usize) {
        let head = [
            u64::from(self.rwp_cancel_flag),
            u64::from(self.rwp_persistence_flag),
            u64::from(self.rwp_constituent_picture_matching_flag),
            u64::from(self.rwp_num_packed_regions),
            u64::from(self.rwp_proj_picture_width),
            u64::from(self.rwp_proj_picture_height),
            u64::from(self.rwp_packed_picture_width),
            u64::from(self.rwp_packed_picture_height),
        ];
        put(row, at, &head);
        put_regions(row, at + BEFORE_REGIONS, &self.regions);
    }
}

#[tactic(auto, using(crate::proofs::RowLaws::fields_length))]
pub fn region_wise(extension: u32, a: RegionWise) -> [u64; REGION_WISE_FIELDS]
    ensures { result ≡ extension ∷ region_wise_fields a }
{
    filled::<_, REGION_WISE_FIELDS>(extension, a)
}

// A message with nothing beside it: a record that holds an array is zeros. Here and below.
pub(crate) fn lasting(
    row: &mut [u64],
    outcome: Outcome,
    extension: u32,
    message: LastingMessage,
) -> Outcome
    ensures { left (outcome_number result) row.new ≡ wrote_by outcome (extension ∷ lasting_fields nothing message) row.old }
{
    match message {
        LastingMessage::FramePacking(m) => hand(row, outcome, extension, m),
        LastingMessage::Orientation(m) => hand(row, outcome, extension, m),
        LastingMessage::Equirectangular(m) => hand(row, outcome, extension, m),
        LastingMessage::Rotation(m) => hand(row, outcome, extension, m),
        LastingMessage::RegionWise => hand(row, outcome, extension, RegionWise::zero()),
    }
}

pub(crate) fn passing(
    row: &mut [u64],
    outcome: Outcome,
    extension: u32,
    message: PassingMessage,
) -> Outcome
    ensures { left (outcome_number result) row.new ≡ wrote_by outcome (extension ∷ passing_fields nothing message) row.old }
{
    match message {
        PassingMessage::Alpha(m) => hand(row, outcome, extension, m),
        PassingMessage::Depth => hand(row, outcome, extension, Depth::zero()),
        PassingMessage::Registered(m) => hand(row, outcome, extension, m),
        PassingMessage::Unregistered => hand(row, outcome, extension, Unregistered::zero()),
    }
}
