//! A hop: the front entry of a queue moves one node on.
ghost use Rattle.std.specs.Prelude.{◌≡◌, ◌<◌};
ghost use Rattle.net_topology.specs.Links.{end_of};
ghost use Rattle.net_machine.specs.Passing.{passing};
ghost use Rattle.net_present.specs.Onward.{entries_at, hops_now};
ghost use Rattle.net_needs.specs.Hopping.{BodyNeeds, EndsAtPort, HasWayOn, HopNeeds};
ghost use Rattle.fabric_events.specs.Fabrics.{IsSound, present_of};
ghost use Rattle.fabric_events.specs.Ready.{HasAnswerRoom, HasCounts, HasSpare, HopReady};
ghost use Rattle.fabric_events.specs.Walking.{moves_by};

use crate::fabric::Fabric;
use block_registers::RegisterSlots;
use fabric_nodes::walking;
use fabric_parts::Entry;
use net_nodes::Room;

impl Fabric {
    /// The front entry of a queue moves one node on.
    ///
    /// `room` is for the answers of a packet whose first hop is performed. Rule: docs/machine.md, "Hop".
    pub(crate) fn hop<B: RegisterSlots>(&mut self, q: u16, room: Option<Room>, banks: &mut B)
        requires sound { IsSound self.old }
        requires needs { HopNeeds (present_of self.old) q }
        requires ready { HopReady self.old room q }
        requires counts { HasCounts (present_of self.old) }
        ensures sound { IsSound self.new }
        ensures present { present_of self.new ≡ (hops_now q (entries_at self.old.queues.entries q)
            (record { present = present_of self.old; banks = B.slots banks.old })).present }
        ensures banks { B.slots banks.new ≡ (hops_now q (entries_at self.old.queues.entries q)
            (record { present = present_of self.old; banks = B.slots banks.old })).banks }
    {
        match self.queues.pop(q as usize) {
            Some(entry) => self.pass(q / 2, (q % 2) as u8, entry, room, banks),
            None => unreachable!(),
        }
    }

    /// An entry that came over d from a queue of a channel goes on at the node there.
    fn pass<B: RegisterSlots>(
        &mut self,
        d: u16,
        vc: u8,
        entry: Entry,
        room: Option<Room>,
        banks: &mut B,
    )
        requires sound { IsSound self.old }
        requires vc { vc < 2 }
        requires comes { EndsAtPort (present_of self.old) d }
        requires way { HasWayOn (present_of self.old) vc (passing self.old.wires (present_of self.old).nodes d entry.packet).outcome }
        requires body { BodyNeeds (present_of self.old) (end_of self.old.wires.links d) entry.packet entry.packet.body }
        requires spare { HasSpare self.old (end_of self.old.wires.links d) }
        requires answers { HasAnswerRoom room entry.packet }
        requires counts { HasCounts (present_of self.old) }
        ensures sound { IsSound self.new }
        ensures present { present_of self.new ≡ (moves_by d vc entry (passing self.old.wires (present_of self.old).nodes d entry.packet)
            (record { present = present_of self.old; banks = B.slots banks.old })).present }
        ensures banks { B.slots banks.new ≡ (moves_by d vc entry (passing self.old.wires (present_of self.old).nodes d entry.packet)
            (record { present = present_of self.old; banks = B.slots banks.old })).banks }
    {
        match walking(&entry.packet) {
            Some(_) => self.walk(d, vc, entry, room),
            None => self.go_on(d, vc, entry, banks),
        }
    }
}
