//! What a management packet for no EPID does at the node to which it came.
ghost use Rattle.std.specs.Prelude.{◌≡◌, ◌<◌, List, Option, length};
ghost use Rattle.block_registers.specs.Registers.{Registers};
ghost use Rattle.chdr_packets.specs.declared.packet.Body.TheVariants as body;
ghost use Rattle.chdr_words.specs.declared.management.Management.{Management as ManagementValue};
ghost use Rattle.net_nodes.specs.Budget.{Serves};
ghost use Rattle.net_topology.specs.Links.{end_of};
ghost use Rattle.net_machine.specs.Passing.{leaves_by, returned, walked_by, walks};
ghost use Rattle.net_present.specs.Onward.{passes_now};
ghost use Rattle.net_needs.specs.Hopping.{EndsAtPort, HasWayOn};
ghost use Rattle.fabric_events.specs.Fabrics.{IsSound, present_of};
ghost use Rattle.fabric_events.specs.Ready.{HasSpare, ServesIf};
ghost use Rattle.fabric_events.specs.Walking.{moves_by};

use crate::fabric::Fabric;
use chdr_packets::{Body, Packet};
use chdr_words::Epid;
use fabric_lists::sites;
use fabric_parts::Entry;
use net_nodes::{Done, Room};

impl Fabric {
    /// A management packet that came over d is performed at the node there; with fewer than two hops it ends.
    ///
    /// Rule: docs/machine.md, "Hop".
    pub(crate) fn walk(&mut self, d: u16, vc: u8, entry: Entry, room: Option<Room>)
        requires sound { IsSound self.old }
        requires vc { vc < 2 }
        requires comes { EndsAtPort (present_of self.old) d }
        requires answers { (m : ManagementValue) → entry.packet.body ≡ body.Management m → ServesIf room m }
        requires way { (m : ManagementValue) → entry.packet.body ≡ body.Management m →
            HasWayOn (present_of self.old) vc (walks self.old.wires (present_of self.old).nodes d entry.packet m).outcome }
        requires spare { HasSpare self.old (end_of self.old.wires.links d) }
        ensures sound { IsSound self.new }
        ensures goes { (m : ManagementValue) (banks : List (Option Registers)) → entry.packet.body ≡ body.Management m →
            moves_by d vc entry (walks self.old.wires (present_of self.old).nodes d entry.packet m)
            (record { present = present_of self.old; banks = banks })
            ≡ record { present = present_of self.new; banks = banks } }
    {
        match room {
            Some(room) => self.perform(d, vc, entry, room),
            None => {}
        }
    }

    /// The first hop of a management packet is performed at the node to which it came over d, and it leaves the node.
    fn perform(&mut self, d: u16, vc: u8, mut entry: Entry, room: Room)
        requires sound { IsSound self.old }
        requires vc { vc < 2 }
        requires comes { EndsAtPort (present_of self.old) d }
        requires answers { (m : ManagementValue) → entry.packet.body ≡ body.Management m → Serves room m }
        requires way { (m : ManagementValue) → entry.packet.body ≡ body.Management m →
            HasWayOn (present_of self.old) vc (walked_by self.old.wires (present_of self.old).nodes d entry.packet m).outcome }
        requires spare { HasSpare self.old (end_of self.old.wires.links d) }
        ensures sound { IsSound self.new }
        ensures goes { (m : ManagementValue) (banks : List (Option Registers)) → entry.packet.body ≡ body.Management m →
            moves_by d vc entry (walked_by self.old.wires (present_of self.old).nodes d entry.packet m)
            (record { present = present_of self.old; banks = banks })
            ≡ record { present = present_of self.new; banks = banks } }
    {
        let (x, port) = self.wires.end_at(d);
        match &mut entry.packet.body {
            Body::Management(m) => {
                let exit = sites::perform(&mut self.sites, x as usize, m, port, room);
                self.leave(x, vc, entry, exit);
            }
            Body::Samples { .. } | Body::Status(_) | Body::Command(_) | Body::Control(_) => {}
        }
    }

    /// A management packet leaves a node by the exit of its hop: over a link, back to its source, or not at all.
    fn leave(&mut self, x: u16, vc: u8, entry: Entry, exit: Done)
        requires sound { IsSound self.old }
        requires there { x < length self.old.wires.nodes }
        requires vc { vc < 2 }
        requires way { (m : ManagementValue) × (entry.packet.body ≡ body.Management m)
            × HasWayOn (present_of self.old) vc (leaves_by self.old.wires x entry.packet m exit) }
        requires spare { HasSpare self.old x }
        ensures sound { IsSound self.new }
        ensures goes { (m : ManagementValue) (banks : List (Option Registers)) → entry.packet.body ≡ body.Management m →
            passes_now x vc entry (leaves_by self.old.wires x entry.packet m exit)
            (record { present = present_of self.old; banks = banks })
            ≡ record { present = present_of self.new; banks = banks } }
    {
        match exit {
            Done::Forward(port) => {
                let link = self.wires.link_at(x, port);
                self.enter_over(link, vc, entry.marked, entry.packet);
            }
            Done::Return | Done::NoSuchPort(_) => self.pend(x, returned(entry.packet)),
            Done::Dead => {}
        }
    }
}

/// A management packet as it goes back to its source.
fn returned(packet: Packet) -> Packet
    ensures { (m : ManagementValue) → packet.body ≡ body.Management m → result ≡ returned packet m }
{
    let dst = source(&packet);
    Packet {
        vc: 1,
        dst,
        ..packet
    }
}

/// The source of a management packet; of another packet its destination.
fn source(packet: &Packet) -> Epid
    ensures { (m : ManagementValue) → packet.now.body ≡ body.Management m → result ≡ m.src }
{
    match &packet.body {
        Body::Management(m) => m.src,
        Body::Samples { .. } | Body::Status(_) | Body::Command(_) | Body::Control(_) => packet.dst,
    }
}
