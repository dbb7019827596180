//! How a net goes on.
ghost use Rattle.std.specs.Prelude.{◌≡◌, ◌++◌, [], ◌∷◌, OnOk, OnErr, IsTrue, None, Some};
ghost use Rattle.net_machine.specs.Effects.{after};
ghost use Rattle.net_machine.specs.State.{State};
ghost use Rattle.net_present.specs.Onward.{goes_on};
ghost use Rattle.fabric_events.specs.Choosing.{doable_now};
ghost use Rattle.fabric_net.specs.Standing.{StandsFor};

use crate::Net;
use crate::net::Prepared;
use block_registers::RegisterSlots;
use net_machine::Event;
use rf_base::Memory;

/// The most events of a run: one less than a count can hold.
const MOST_STEPS: u64 = u64::MAX - 1;

impl Net {
    /// Takes all memory that an event needs, so that its step takes none; one that isn't enabled needs none.
    ///
    /// At `Err` nothing is prepared, and all else stays.
    pub fn prepare(&mut self, event: Event) -> Result<(), Memory>
        ensures present { self.new.present ≡ self.old.present }
        ensures journal { self.new.journal ≡ self.old.journal }
        ensures prepared { OnOk result (self.new.prepared ≡ Some event) }
        ensures refused { OnErr result (self.new.prepared ≡ None) }
    {
        self.prepared = None;
        if self.steps >= MOST_STEPS {
            return Err(Memory);
        }
        self.journal.reserve(1)?;
        let room = if self.fabric.enabled(event) {
            self.fabric.reserve(event)?
        } else {
            None
        };
        self.prepared = Some(Prepared { event, room });
        Ok(())
    }

    /// Lets an event happen, with the registers that the caller lends, and appends it to the journal; it takes no
    /// memory.
    ///
    /// Rule: docs/machine.md, "Events".
    pub fn step<B: RegisterSlots>(&mut self, event: Event, banks: &mut B)
        requires doable { IsTrue (doable_now self.old.present event) }
        requires prepared { self.old.prepared ≡ Some event }
        ensures present { self.new.present
            ≡ (goes_on event (record { present = self.old.present; banks = B.slots banks.old })).present }
        ensures banks { B.slots banks.new
            ≡ (goes_on event (record { present = self.old.present; banks = B.slots banks.old })).banks }
        ensures machine { (w : State) → StandsFor self.old.present w → w.banks ≡ B.slots banks.old →
            StandsFor self.new.present (after w event) × ((after w event).banks ≡ B.slots banks.new) }
        ensures journal { self.new.journal ≡ self.old.journal ++ event ∷ [] }
        ensures none { self.new.prepared ≡ None }
    {
        let room = match self.prepared.take() {
            Some(prepared) => prepared.room,
            None => None,
        };
        self.journal.push_reserved(event);
        self.steps += 1;
        self.fabric.happen(event, room, banks);
    }
}
