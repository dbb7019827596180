ghost use Rattle.std.specs.Prelude.{◌≡◌, ◌+◌, ◌<◌, ◌≤◌, length, IfOk};
ghost use Rattle.net_nodes.specs.Operations.{asked_in};
ghost use Rattle.net_nodes.specs.Perform.{first_hop, last_hop, performed, without_first, work_of};
ghost use Rattle.net_nodes.specs.Table.{with_exit};
ghost use Rattle.fabric_nodes.specs.Shapes.{HasPort, empty_table, leaves_of, shape_at, site_of};

use crate::{Packets, Wires};
use chdr_words::{Epid, EpidList, Management};
use net_nodes::{Adapter, Crossbar, Done, EndNode, Room};
use net_topology::NodePlan;
use rf_base::Memory;
use std::alloc::Global;
use std::marker::Model;

/// A node with what lies at it; contracts see it as what the machine's node holds.
#[derive(Debug, Drop)]
pub struct Site {
    pub node: NodePart,
    /// Answers that are to leave it.
    pub pending: Packets,
    /// Requests that are to leave it.
    pub requests: Packets,
    /// Answers that came to it.
    pub answers: Packets,
}

#[derive(Debug, Drop)]
pub(crate) enum Kind {
    Crossbar(Crossbar),
    Adapter(Adapter),
    End(EndNode),
}

/// A crossbar, an adapter or an end node, with its table.
#[derive(Debug, Drop)]
pub struct NodePart {
    kind: Kind,
}

impl Model for NodePart {
    ghost use Rattle.fabric_nodes.specs.Shapes.{NodeSeen};

    ghost Value = { NodeSeen };

    ghost use Rattle.fabric_nodes.specs.NodeView.{IsSound, view_of};

    ghost view = { view_of };

    ghost invariant = { IsSound };
}

impl NodePart {
    /// Node `node` of a network, without entries; a crossbar and an adapter have a place for each EPID.
    pub fn new(
        alloc: Global,
        wires: &Wires,
        node: u16,
        epids: &EpidList,
    ) -> Result<NodePart, Memory>
        requires { node < length wires.now.nodes }
        ensures shape { IfOk result (λ made. made.shape ≡ shape_at wires.now node) }
        ensures table { IfOk result (λ made. made.table ≡ empty_table (shape_at wires.now node) epids.now) }
    {
        let kind = match wires.node(node) {
            NodePlan::Crossbar { ports } => {
                let linked = wires.link_bits(node, ports);
                Kind::Crossbar(Crossbar::new(alloc, node, ports, linked, epids)?)
            }
            NodePlan::Adapter => {
                let linked = wires.link_bits(node, 2);
                Kind::Adapter(Adapter::new(alloc, node, 2, linked, epids)?)
            }
            NodePlan::Host { epid } | NodePlan::Endpoint { epid, .. } => Kind::End(EndNode {
                instance: node,
                epid,
            }),
        };
        Ok(NodePart { kind })
    }

    /// The port by which packets to an EPID leave.
    pub fn exit(&self, dst: Epid) -> Option<u8>
        ensures { result ≡ leaves_of self.now.shape self.now.table dst }
    {
        match &self.kind {
            Kind::Crossbar(node) => node.route(dst),
            Kind::Adapter(node) => node.route(dst),
            Kind::End(_) => Some(0),
        }
    }

    /// Makes the port the entry of an EPID that has a place; another EPID changes nothing.
    pub fn set(&mut self, dst: Epid, port: u8)
        requires { HasPort self.old.shape port }
        ensures { self.new ≡ record self.old { table = with_exit self.old.table dst port } }
    {
        match &mut self.kind {
            Kind::Crossbar(node) => node.set(dst, port),
            Kind::Adapter(node) => node.set(dst, port),
            Kind::End(_) => {}
        }
    }

    /// Performs the first hop of a packet that came by a port, and takes it off.
    ///
    /// `room` is from `reserve_answers`.
    pub fn perform(&mut self, m: &mut Management, port_in: u8, room: Room) -> Done
        requires port { HasPort self.old.shape port_in }
        requires hops { 2 ≤ length m.old.hops }
        requires room { length (last_hop m.old) + asked_in (first_hop m.old) ≤ room }
        ensures work { work_of self.new.table result (last_hop m.new)
            ≡ performed (site_of self.old.shape port_in) self.old.table m.old }
        ensures kept { self.new.shape ≡ self.old.shape }
        ensures packet { m.new ≡ without_first m.old (last_hop m.new) }
    {
        match &mut self.kind {
            Kind::Crossbar(node) => node.perform(m, port_in, room),
            Kind::Adapter(node) => node.perform(m, port_in, room),
            Kind::End(node) => node.perform(m, room),
        }
    }
}
