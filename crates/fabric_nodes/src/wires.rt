ghost use Rattle.std.specs.Prelude.{◌≡◌, ◌+◌, ◌*◌, ◌^◌, ◌<◌, ◌≤◌, length, None, Some, IfOk, IfSome};
ghost use Rattle.std.specs.BTreeMap as tree;
ghost use Rattle.std.specs.Ordering.{nat_cmp};
ghost use Rattle.net_topology.specs.Links.{end_of, end_port, link_at};
ghost use Rattle.net_topology.specs.Ports.{link_bits};
ghost use Rattle.net_topology.specs.Tree.{FitsNode, IsChecked, IsTree, node_with};
ghost use Rattle.net_machine.specs.Nodes.{is_host_at, is_switch, own_epid, planned, slot_at, slot_by};
ghost use Rattle.net_topology.specs.Leads.{turned_to};
ghost use Rattle.std.specs.Option.{option_and_then};
ghost use Rattle.net_machine.specs.Plans.{first_link};
ghost use Rattle.fabric_nodes.specs.Lookups.{IsHolding, leaving_links};

use chdr_words::Epid;
use net_topology::{NodePlan, Plan, Topology};
use rf_base::{Copyable, Memory};
use std::alloc::Global;
use std::collections::BTreeMap;
use std::marker::Model;

/// How many ports a node has at most.
const MOST_PORTS: usize = 32;

/// The tree of a network, with what leaves each port and which node has each EPID; contracts see it as
/// the plan of that tree.
#[derive(Drop)]
pub struct Wires {
    plan: Plan,
    /// The directed link that leaves node x by port p, at 32 x + p.
    leaving: Vec<Option<u16>>,
    /// The node that has each EPID.
    holders: BTreeMap<u16, u16>,
}

impl Model for Wires {
    ghost use Rattle.net_topology.specs.declared.plan.Plan.{Plan};

    ghost Value = { Plan };

    ghost use Rattle.fabric_nodes.specs.WiresView.{IsSound};

    ghost view = { λ wires. wires.plan };

    ghost invariant = { IsSound };
}

impl Wires {
    /// The look-ups of a tree.
    pub fn new(alloc: Global, topology: &Topology) -> Result<Wires, Memory>
        ensures { IfOk result (λ wires. wires ≡ topology.now) }
    {
        let plan = topology.plan();
        let leaving = leaving_links(alloc, topology, plan.nodes.len())?;
        let holders = holding_nodes(alloc, topology)?;
        Ok(Wires {
            plan: plan.copy()?,
            leaving,
            holders,
        })
    }

    /// The plan of the tree.
    pub fn plan(&self) -> &Plan
        ensures same { result.now ≡ self.now }
        ensures tree { IsChecked self.now }
    {
        &self.plan
    }

    /// Node `node` as it was planned.
    pub fn node(&self, node: u16) -> NodePlan
        requires { node < length self.now.nodes }
        ensures value { planned self.now node ≡ Some result }
        ensures fits { FitsNode result }
        ensures few { length self.now.nodes ≤ 256 }
    {
        self.plan.nodes.as_slice()[node as usize]
    }

    /// The node and the port at which directed link d ends.
    pub fn end_at(&self, d: u16) -> (u16, u8)
        requires { d < 2 * length self.now.links }
        ensures value { result ≡ (end_of self.now.links d, end_port self.now.links d) }
        ensures there { result.0 < length self.now.nodes }
    {
        let link = self.plan.links.as_slice()[(d / 2) as usize];
        if d % 2 == 0 {
            (link.b, link.b_port)
        } else {
            (link.a, link.a_port)
        }
    }

    /// The directed link that leaves a node by a port.
    pub fn link_at(&self, node: u16, port: u8) -> Option<u16>
        ensures value { result ≡ link_at self.now.links node port }
        ensures there { IfSome result (λ d. d < 2 * length self.now.links) }
    {
        if (node as usize) < self.plan.nodes.len() && (port as usize) < MOST_PORTS {
            self.leaving.as_slice()[MOST_PORTS * node as usize + port as usize]
        } else {
            None
        }
    }

    /// The node that has the EPID.
    pub fn node_with(&self, epid: Epid) -> Option<u16>
        ensures value { result ≡ node_with self.now.nodes epid }
        ensures there { IfSome result (λ x. x < length self.now.nodes) }
    {
        self.holders.get(&epid.0).copied()
    }

    /// The directed link by which packets of the end node with an EPID leave it.
    pub fn first_link(&self, epid: Epid) -> Option<u16>
        ensures value { result ≡ first_link self.now epid }
        ensures there { IfSome result (λ d. d < 2 * length self.now.links) }
    {
        let node = self.node_with(epid)?;
        self.link_at(node, 0)
    }

    /// The link behind a port of the node at which directed link d ends, unless it is the same link.
    pub fn turned_to(&self, d: u16, port: u8) -> Option<u16>
        requires { d < 2 * length self.now.links }
        ensures value { result ≡ turned_to self.now d port }
        ensures there { IfSome result (λ e. e < 2 * length self.now.links) }
    {
        let (node, arrival) = self.end_at(d);
        if port == arrival {
            None
        } else {
            self.link_at(node, port)
        }
    }

    /// Whether the node passes packets on by a table.
    pub fn is_switch(&self, node: u16) -> bool
        requires { node < length self.now.nodes }
        ensures { result ≡ is_switch self.now node }
    {
        self.node(node).has_table()
    }

    /// Whether the node is a host.
    pub fn is_host(&self, node: u16) -> bool
        requires { node < length self.now.nodes }
        ensures { result ≡ is_host_at self.now node }
    {
        match self.node(node) {
            NodePlan::Host { .. } => true,
            NodePlan::Crossbar { .. } | NodePlan::Adapter | NodePlan::Endpoint { .. } => false,
        }
    }

    /// The EPID of an end node; no other node has one.
    pub fn own_epid(&self, node: u16) -> Epid
        requires { node < length self.now.nodes }
        ensures { result ≡ own_epid self.now node }
    {
        match self.node(node).epid() {
            Some(epid) => epid,
            None => Epid(0),
        }
    }

    /// The slot that an endpoint serves at a port: that of its bank, at the port of the bank's number.
    pub fn slot_at(&self, node: u16, port: u16) -> Option<u16>
        requires { node < length self.now.nodes }
        ensures { result ≡ slot_at self.now node port }
    {
        match self.node(node) {
            NodePlan::Endpoint { bank, .. } => slot_by(port, bank),
            NodePlan::Crossbar { .. } | NodePlan::Adapter | NodePlan::Host { .. } => None,
        }
    }

    /// Bit p says that port p of the node has a link.
    pub fn link_bits(&self, node: u16, ports: u8) -> u32
        requires { ports ≤ 32 }
        ensures value { result ≡ link_bits self.now.links node ports }
        ensures within { result < 2 ^ ports }
    {
        let mut bits = 0;
        for port in 0..ports {
            if self.link_at(node, port).is_some() {
                bits += 1u32 << port;
            }
        }
        bits
    }
}

fn slot_by(port: u16, bank: Option<u16>) -> Option<u16>
    ensures { result ≡ option_and_then (slot_by port) bank }
{
    match bank {
        Some(bank) => { if bank == port { Some(bank) } else { None } }
        None => None,
    }
}

/// The link that leaves each node by each port that a node may have.
fn leaving_links(
    alloc: Global,
    topology: &Topology,
    nodes: usize,
) -> Result<Vec<Option<u16>>, Memory>
    requires nodes { nodes ≡ length topology.now.nodes }
    requires few { nodes ≤ 256 }
    ensures { IfOk result (λ links. links.items ≡ leaving_links topology.now) }
{
    let links = (0..MOST_PORTS * nodes)
        .map(|i| topology.link_at((i / MOST_PORTS) as u16, (i % MOST_PORTS) as u8))
        .collect(alloc)?;
    Ok(links)
}

/// The node that has each EPID, by the EPID's number.
fn holding_nodes(alloc: Global, topology: &Topology) -> Result<BTreeMap<u16, u16>, Memory>
    requires { IsTree topology.now }
    ensures { IfOk result (λ holders. IsHolding topology.now.nodes (tree.get nat_cmp holders)) }
{
    let mut holders = BTreeMap::new(alloc);
    for node in topology.plan().nodes.as_slice() {
        match node.epid() {
            Some(epid) => match topology.node_of(epid) {
                Some(holder) => {
                    holders.insert(epid.0, holder)?;
                }
                None => {}
            },
            None => {}
        }
    }
    Ok(holders)
}
