// What a slot holds: of each of five kinds one record, or nothing. Of each kind there is what a taken message leaves,
// nothing where it cancels; and what a picture leaves, nothing where the persistence flag is 0.
#![tactic(auto)]

ghost use Rattle.std.specs.Prelude.{◌≡◌, eqb, if◌then◌else◌};
ghost use Rattle.kind_region_wise.specs.RegionWise.{BareCancel};
ghost use Rattle.answers.specs.Listed.{zeros};
ghost use Rattle.held.specs.Lasting.{
  Lasting,
  frame_packing,
  orientation,
  equirectangular,
  rotation,
  region_wise,
  kind_of,
  RecordOf,
  HeldOf,
  cancel_of,
  persistence_of,
  marked,
  value_of,
};
ghost use Rattle.held.specs.Held.{none_of, taken_of, kept_of, held_of, nothing, kept, replaced, took};

use kind_equirectangular::Equirectangular;
use kind_frame_packing::FramePacking;
use kind_orientation::Orientation;
use kind_region_wise::RegionWise;
use kind_rotation::Rotation;

// What is held of one kind: a mark, 1 where a record is held, and the record. A record of zeros is a message too, so nothing has a mark of its
// own. An exported function takes no generic struct, so each kind has a struct of its own, and says of it where its record's flags are; what
// becomes of it is said once.
pub trait HeldRecord: Copy {
    type Record: Copy;

    ghost kind: { Lasting };

    ghost as_record: { Self.Record → RecordOf kind };

    ghost as_held: { Self → HeldOf kind };

    fn marked(on: u8, value: Self::Record) -> Self
        ensures { as_held result ≡ marked kind on (as_record value) };

    fn zero() -> Self::Record
        ensures { as_record result ≡ zeros (kind_of kind) };

    fn cancel_flag(x: &Self::Record) -> u8
        ensures { result ≡ cancel_of kind (as_record x.now) };

    fn persistence_flag(&self) -> u8
        ensures { result ≡ persistence_of kind (value_of kind (as_held self.now)) };

    // The one among the five.
    fn among(held: &Held) -> &Self
        ensures { as_held result.now ≡ held_of kind held.now };

    // It becomes that one.
    fn put(self, held: &mut Held)
        ensures { held.new ≡ replaced kind held.old (as_held self) };

    #[tactic(auto, unfolding(crate::specs::Held::none_of))]
    fn nothing() -> Self
        ensures { as_held result ≡ none_of kind }
    {
        Self::marked(0, Self::zero())
    }

    #[tactic(auto, unfolding(crate::specs::Held::taken_of))]
    fn taken(x: Self::Record) -> Self
        ensures { as_held result ≡ taken_of kind (as_record x) }
    {
        if Self::cancel_flag(&x) != 0 {
            return Self::nothing();
        }
        Self::marked(1, x)
    }

    // What a picture leaves among the five, where it lies: one that stays is not written again.
    #[tactic(auto, using(crate::proofs::HeldLaws::held_same), unfolding(crate::specs::Held::kept_of))]
    fn lapse(held: &mut Held)
        ensures { held.new ≡ replaced kind held.old (kept_of kind (held_of kind held.old)) }
    {
        if Self::among(held).persistence_flag() == 0 {
            Self::nothing().put(held);
        }
    }
}

#[repr(C)]
#[derive(Clone, Copy)]
pub struct HeldFramePacking {
    pub on: u8,
    pub value: FramePacking,
}

impl HeldRecord for HeldFramePacking {
    type Record = FramePacking;

    ghost kind = { frame_packing };

    ghost as_record = { λ x. x };

    ghost as_held = { λ x. x };

    fn marked(on: u8, value: FramePacking) -> HeldFramePacking {
        HeldFramePacking { on, value }
    }

    fn zero() -> FramePacking {
        FramePacking::zero()
    }

    fn cancel_flag(x: &FramePacking) -> u8 {
        x.fp_arrangement_cancel_flag
    }

    fn persistence_flag(&self) -> u8 {
        self.value.layout.fp_arrangement_persistence_flag
    }

    fn among(held: &Held) -> &HeldFramePacking {
        &held.frame_packing
    }

    fn put(self, held: &mut Held) {
        held.frame_packing = self;
    }
}

#[repr(C)]
#[derive(Clone, Copy)]
pub struct HeldOrientation {
    pub on: u8,
    pub value: Orientation,
}

impl HeldRecord for HeldOrientation {
    type Record = Orientation;

    ghost kind = { orientation };

    ghost as_record = { λ x. x };

    ghost as_held = { λ x. x };

    fn marked(on: u8, value: Orientation) -> HeldOrientation {
        HeldOrientation { on, value }
    }

    fn zero() -> Orientation {
        Orientation::zero()
    }

    fn cancel_flag(x: &Orientation) -> u8 {
        x.display_orientation_cancel_flag
    }

    fn persistence_flag(&self) -> u8 {
        self.value.display_orientation_persistence_flag
    }

    fn among(held: &Held) -> &HeldOrientation {
        &held.orientation
    }

    fn put(self, held: &mut Held) {
        held.orientation = self;
    }
}

#[repr(C)]
#[derive(Clone, Copy)]
pub struct HeldEquirectangular {
    pub on: u8,
    pub value: Equirectangular,
}

impl HeldRecord for HeldEquirectangular {
    type Record = Equirectangular;

    ghost kind = { equirectangular };

    ghost as_record = { λ x. x };

    ghost as_held = { λ x. x };

    fn marked(on: u8, value: Equirectangular) -> HeldEquirectangular {
        HeldEquirectangular { on, value }
    }

    fn zero() -> Equirectangular {
        Equirectangular::zero()
    }

    fn cancel_flag(x: &Equirectangular) -> u8 {
        x.erp_cancel_flag
    }

    fn persistence_flag(&self) -> u8 {
        self.value.erp_persistence_flag
    }

    fn among(held: &Held) -> &HeldEquirectangular {
        &held.equirectangular
    }

    fn put(self, held: &mut Held) {
        held.equirectangular = self;
    }
}

#[repr(C)]
#[derive(Clone, Copy)]
pub struct HeldRotation {
    pub on: u8,
    pub value: Rotation,
}

impl HeldRecord for HeldRotation {
    type Record = Rotation;

    ghost kind = { rotation };

    ghost as_record = { λ x. x };

    ghost as_held = { λ x. x };

    fn marked(on: u8, value: Rotation) -> HeldRotation {
        HeldRotation { on, value }
    }

    fn zero() -> Rotation {
        Rotation::zero()
    }

    fn cancel_flag(x: &Rotation) -> u8 {
        x.sphere_rotation_cancel_flag
    }

    fn persistence_flag(&self) -> u8 {
        self.value.sphere_rotation_persistence_flag
    }

    fn among(held: &Held) -> &HeldRotation {
        &held.rotation
    }

    fn put(self, held: &mut Held) {
        held.rotation = self;
    }
}

#[repr(C)]
#[derive(Clone, Copy)]
pub struct HeldRegionWise {
    pub on: u8,
    pub value: RegionWise,
}

impl HeldRecord for HeldRegionWise {
    type Record = RegionWise;

    ghost kind = { region_wise };

    ghost as_record = { λ x. x };

    ghost as_held = { λ x. x };

    fn marked(on: u8, value: RegionWise) -> HeldRegionWise {
        HeldRegionWise { on, value }
    }

    fn zero() -> RegionWise {
        RegionWise::zero()
    }

    fn cancel_flag(x: &RegionWise) -> u8 {
        x.rwp_cancel_flag
    }

    fn persistence_flag(&self) -> u8 {
        self.value.rwp_persistence_flag
    }

    fn among(held: &Held) -> &HeldRegionWise {
        &held.region_wise
    }

    fn put(self, held: &mut Held) {
        held.region_wise = self;
    }
}

// What the mark becomes by a message with this cancel flag.
fn mark(cancel: u8) -> u8
    ensures { result ≡ (if eqb cancel 0 then 1 else 0) }
{
    if cancel != 0 {
        return 0;
    }
    1
}

impl HeldRegionWise {
    // `taken` of a message as it is coded: a cancel is its flag and nothing else, so that there are no two records to choose from, and no
    // copy of either.
    pub fn coded(mut x: RegionWise) -> HeldRegionWise
        requires { BareCancel x }
        ensures { result ≡ taken_of region_wise x }
    {
        let on = mark(x.rwp_cancel_flag);
        x.rwp_cancel_flag = 0;
        HeldRegionWise { on, value: x }
    }
}

#[repr(C)]
#[derive(Clone, Copy)]
pub struct Held {
    pub frame_packing: HeldFramePacking,
    pub orientation: HeldOrientation,
    pub equirectangular: HeldEquirectangular,
    pub rotation: HeldRotation,
    pub region_wise: HeldRegionWise,
}

impl Held {
    #[tactic(auto, unfolding(crate::specs::Held::nothing))]
    pub fn nothing() -> Held
        ensures { result ≡ nothing }
    {
        Held {
            frame_packing: HeldFramePacking::nothing(),
            orientation: HeldOrientation::nothing(),
            equirectangular: HeldEquirectangular::nothing(),
            rotation: HeldRotation::nothing(),
            region_wise: HeldRegionWise::nothing(),
        }
    }

    // What a picture leaves, kind by kind where it lies.
    #[tactic(auto, unfolding(crate::specs::Held::kept))]
    pub fn lapse(&mut self)
        ensures { self.new ≡ kept self.old }
    {
        HeldFramePacking::lapse(self);
        HeldOrientation::lapse(self);
        HeldEquirectangular::lapse(self);
        HeldRotation::lapse(self);
        HeldRegionWise::lapse(self);
    }

    // After a taken message of one kind: the others stay.
    pub fn with<H: HeldRecord>(mut self, x: H::Record) -> Held
        ensures { result ≡ took H.kind self (H.as_record x) }
    {
        H::taken(x).put(&mut self);
        self
    }
}
