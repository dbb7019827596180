ghost use Rattle.std.specs.Prelude.{◌≡◌, ◌↔◌, ◌+◌, ◌≤◌, ◌<◌, [], IsTrue, length};
ghost use Rattle.chdr_words.specs.NodeInfo.{FitsInfo};
ghost use Rattle.net_nodes.specs.Operations.{asked_in};
ghost use Rattle.net_nodes.specs.Perform.{first_hop, last_hop, performed, without_first};
ghost use Rattle.net_nodes.specs.Switch.{end_site};

use crate::hop::perform_hop;
use crate::{Done, Room, Site, Table};
use chdr_words::{Epid, Management, NodeInfo, NodeKind};

/// A host or an endpoint, which has one port and no table.
#[derive(Clone, Copy, Debug, PartialEq, Eq)]
pub struct EndNode {
    /// The node's number, below 1,024.
    pub instance: u16,
    pub epid: Epid,
}

impl EndNode {
    /// Whether the node's number is below 1,024: what `perform` asks for.
    pub fn fits(&self) -> bool
        ensures { IsTrue result ↔ self.now.instance < 1024 }
    {
        self.instance < 1024
    }

    /// Performs the first hop of a packet, and takes it off.
    ///
    /// `room` is from `reserve_answers`. Rule: docs/control-and-discovery.md, "Hops".
    pub fn perform(&self, m: &mut Management, room: Room) -> Done
        requires instance { self.now.instance < 1024 }
        requires hops { 2 ≤ length m.old.hops }
        requires room { length (last_hop m.old) + asked_in (first_hop m.old) ≤ room }
        ensures exit { result ≡ (performed (end_site self.now) [] m.old).exit }
        ensures last { last_hop m.new ≡ (performed (end_site self.now) [] m.old).last }
        ensures packet { m.new ≡ without_first m.old (last_hop m.new) }
    {
        let mut table = Table::none(room.allocator());
        perform_hop(&self.site(), &mut table, m, room)
    }

    fn site(&self) -> Site
        requires { self.now.instance < 1024 }
        ensures value { result ≡ end_site self.now }
        ensures fits { FitsInfo result.info }
    {
        Site {
            info: NodeInfo {
                device: 1,
                kind: NodeKind::Endpoint,
                instance: self.instance,
                extended: self.epid.0 as u32,
            },
            ports: 0,
            linked: 0,
            arrival: 0,
        }
    }
}
