// One slot and its calls; and the eight, each call on one of which leaves the others. Any value of the types is fine, also one that no call
// made.
#![tactic(auto)]

ghost use Rattle.std.specs.Prelude.{◌≡◌, if◌then◌else◌};
ghost use Rattle.slots.specs.Slots.{
  call_number,
  done,
  refused,
  fresh_slot,
  closed_slot,
  is_open,
  holding,
  opening,
  closing,
  sequencing,
  picturing,
  start,
  slot_at,
  lifted,
};
ghost use Rattle.held.specs.Held.{nothing};

use bits::refusal::Refusal;
use held::{
    Held, HeldEquirectangular, HeldFramePacking, HeldOrientation, HeldRecord, HeldRegionWise,
    HeldRotation,
};

// The number that a caller gets of a call that reads nothing.
pub fn number(answer: Result<(), Refusal>) -> u32
    ensures { result ≡ call_number answer }
{
    match answer {
        Ok(()) => 0,
        Err(why) => why.number(),
    }
}

// open is 1 where the slot is open, and any other number is closed.
#[repr(C)]
#[derive(Clone, Copy)]
pub struct Slot {
    pub open: u8,
    pub held: Held,
}

impl Slot {
    // The state that opening and a sequence call leave, and closing but for its mark.
    #[tactic(auto, unfolding(crate::specs::Slots::fresh_slot))]
    pub fn fresh() -> Slot
        ensures { result ≡ fresh_slot }
    {
        let held = Held::nothing();
        Slot { open: 1, held }
    }

    #[tactic(auto, unfolding(crate::specs::Slots::fresh_slot, crate::specs::Slots::closed_slot))]
    pub fn closed() -> Slot
        ensures { result ≡ closed_slot }
    {
        let mut slot = Slot::fresh();
        slot.open = 0;
        slot
    }

    #[tactic(auto, unfolding(crate::specs::Slots::is_open))]
    pub fn is_open(&self) -> bool
        ensures { result ≡ is_open self.now }
    {
        self.open == 1
    }

    #[tactic(auto, unfolding(crate::specs::Slots::holding))]
    pub fn holding(mut self, held: Held) -> Slot
        ensures { result ≡ holding self held }
    {
        self.held = held;
        self
    }

    // 8 unless the slot is open: what closing, a sequence call and a picture have in common.
    fn if_open(&self) -> Result<(), Refusal>
        ensures { result ≡ (if is_open self.now then done else refused) }
    {
        if self.is_open() {
            return Ok(());
        }
        Err(Refusal::slot())
    }

    pub fn close(&mut self) -> Result<(), Refusal>
        ensures { (self.new, result) ≡ closing self.old }
    {
        self.if_open()?;
        *self = Slot::closed();
        Ok(())
    }

    pub fn sequence(&mut self) -> Result<(), Refusal>
        ensures { (self.new, result) ≡ sequencing self.old }
    {
        self.if_open()?;
        *self = Slot::fresh();
        Ok(())
    }

    // What is shown is the five records as they were; a refusal shows nothing five times. A record that is dropped is dropped where it lies.
    #[tactic(auto, unfolding(crate::specs::Slots::holding))]
    pub fn picture(&mut self, shown: &mut Held) -> Result<(), Refusal>
        ensures { (self.new, (result, shown.new)) ≡ picturing self.old }
    {
        if !self.is_open() {
            *shown = Held::nothing();
            return Err(Refusal::slot());
        }
        *shown = self.held;
        self.held.lapse();
        Ok(())
    }
}

#[repr(C)]
#[derive(Clone, Copy)]
pub struct Slots {
    pub slots: [Slot; 8],
}

impl Slots {
    #[tactic(auto, unfolding(crate::specs::Slots::start))]
    pub fn start() -> Slots
        ensures { result ≡ start }
    {
        Slots {
            slots: [Slot::closed(); 8],
        }
    }

    // Slot n, and a closed one past the eighth.
    pub fn slot(&self, n: u64) -> Slot
        ensures { result ≡ slot_at self.now n }
    {
        match self.slots.get(n as usize) {
            Some(slot) => *slot,
            None => Slot::closed(),
        }
    }

    pub fn open(&mut self, n: u64) -> Result<(), Refusal>
        ensures { (self.new, result) ≡ lifted opening refused self.old n }
    {
        if 8 <= n {
            return Err(Refusal::slot());
        }
        self.slots[n as usize] = Slot::fresh();
        Ok(())
    }

    pub fn close(&mut self, n: u64) -> Result<(), Refusal>
        ensures { (self.new, result) ≡ lifted closing refused self.old n }
    {
        if 8 <= n {
            return Err(Refusal::slot());
        }
        let slot = &mut self.slots[n as usize];
        slot.close()
    }

    pub fn sequence(&mut self, n: u64) -> Result<(), Refusal>
        ensures { (self.new, result) ≡ lifted sequencing refused self.old n }
    {
        if 8 <= n {
            return Err(Refusal::slot());
        }
        let slot = &mut self.slots[n as usize];
        slot.sequence()
    }

    pub fn picture(&mut self, n: u64, shown: &mut Held) -> Result<(), Refusal>
        ensures { (self.new, (result, shown.new)) ≡ lifted picturing (refused, nothing) self.old n }
    {
        if 8 <= n {
            *shown = Held::nothing();
            return Err(Refusal::slot());
        }
        let slot = &mut self.slots[n as usize];
        slot.picture(shown)
    }
}
