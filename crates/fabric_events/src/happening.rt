//! One call for all events.
ghost use Rattle.std.specs.Prelude.{◌≡◌, IsTrue};
ghost use Rattle.net_present.specs.Onward.{goes_on};
ghost use Rattle.net_needs.specs.Needs.{NeedsOf};
ghost use Rattle.fabric_events.specs.Choosing.{doable_now};
ghost use Rattle.fabric_events.specs.Fabrics.{IsSound, present_of};
ghost use Rattle.fabric_events.specs.Ready.{HasCounts, IsReady};

use crate::fabric::Fabric;
use block_registers::RegisterSlots;
use net_machine::Event;
use net_nodes::Room;

impl Fabric {
    /// An event happens that can, with the memory that `reserve` took for it; `banks` are the registers in the slots.
    ///
    /// Rule: docs/machine.md, "Events".
    #[tactic(auto, unfolding(net_present::specs::Onward::goes_on))]
    pub fn happen<B: RegisterSlots>(&mut self, event: Event, room: Option<Room>, banks: &mut B)
        requires sound { IsSound self.old }
        requires needs { NeedsOf (present_of self.old) event }
        requires doable { IsTrue (doable_now (present_of self.old) event) }
        requires ready { IsReady self.old room event }
        requires counts { HasCounts (present_of self.old) }
        ensures sound { IsSound self.new }
        ensures present { present_of self.new
            ≡ (goes_on event (record { present = present_of self.old; banks = B.slots banks.old })).present }
        ensures banks { B.slots banks.new
            ≡ (goes_on event (record { present = present_of self.old; banks = B.slots banks.old })).banks }
    {
        match event {
            Event::Enter(s) => self.enter(s as usize),
            Event::Command(s, op) => self.order(s as usize, op),
            Event::Report(s) => self.report(s as usize),
            Event::Seen(s, n) => self.see(s as usize, n),
            Event::Feed(b, i) => self.feed(b as usize, i),
            Event::Ask(x) => self.ask(x),
            Event::Reply(x) => self.reply(x),
            Event::Lose(q) => self.lose(q as usize),
            Event::Hop(q) => self.hop(q, room, banks),
        }
    }
}
