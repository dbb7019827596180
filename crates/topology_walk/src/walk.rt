//! A walk on its way.
ghost use Rattle.std.specs.Prelude.{◌≡◌, ◌<◌, ◌≤◌, ◌+◌, ◌^◌, [], ◌∷◌, ◌++◌, not, length, IfOk, OnOk, if◌then◌else◌};
ghost use Rattle.std.specs.List.{flat_map};
ghost use Rattle.found_nodes.specs.Found.{IsListed, found_at};
ghost use Rattle.host_talk.specs.Settled.{IsSettledNow};
ghost use Rattle.topology_walk.specs.Nodes.{is_arrival, port_of, ports_behind};
ghost use Rattle.topology_walk.specs.Walks.{AreKnown, IsKnown, IsSource, WalksOn, added, walk_from};

use crate::probes::{Behind, Source, probe};
use block_registers::RegisterSlots;
use chdr_words::NodeKind;
use fabric_net::Net;
use rf_base::{Copyable, Items, Memory};
use std::alloc::Global;
use walk_books::{Found, FoundNode, LostPort};

/// Ports by which a walker leaves the nodes on its way, the host's first.
pub(crate) type Trail = Items<u8>;

/// What was found, with the trail to each node.
#[derive(Debug, Drop)]
pub(crate) struct Walk {
    pub(crate) found: Found,
    pub(crate) trails: Items<Trail>,
}

/// Looks behind each port of each node that was found, and of those that are found so.
pub(crate) fn walk_on<B: RegisterSlots>(
    alloc: Global,
    net: &mut Net,
    banks: &mut B,
    source: Source,
    walk: &mut Walk,
) -> Result<(), Memory>
    requires settled { IsSettledNow net.old.present }
    requires source { IsSource net.old.present.tree source.node source.epid }
    requires known { AreKnown net.old.present.tree source.node walk.old.found.nodes walk.old.trails }
    requires none { walk.old.found.bare ≡ 0 }
    ensures { OnOk result (WalksOn net.old.present.tree source.epid source.node (flat_map ports_behind walk.new.found.nodes)
        (record { walk = walk.old; net = net.old; banks = B.slots banks.old })
        (record { walk = walk.new; net = net.new; banks = B.slots banks.new })) }
{
    // no more nodes have numbers of their own
    for index in 0..u16::MAX {
        if index as usize >= walk.found.nodes.len() {
            return Ok(());
        }
        look_around(alloc, net, banks, source, walk, index as usize)?;
    }
    Err(Memory)
}

/// Looks behind each port of a found node, but that by which it was found.
fn look_around<B: RegisterSlots>(
    alloc: Global,
    net: &mut Net,
    banks: &mut B,
    source: Source,
    walk: &mut Walk,
    index: usize,
) -> Result<(), Memory>
    requires settled { IsSettledNow net.old.present }
    requires source { IsSource net.old.present.tree source.node source.epid }
    requires known { AreKnown net.old.present.tree source.node walk.old.found.nodes walk.old.trails }
    requires there { index < length walk.old.found.nodes }
    requires few { walk.old.found.bare < 2 ^ 31 }
    ensures walks { OnOk result (WalksOn net.old.present.tree source.epid source.node
        (ports_behind (found_at walk.old.found.nodes index))
        (record { walk = walk.old; net = net.old; banks = B.slots banks.old })
        (record { walk = walk.new; net = net.new; banks = B.slots banks.new })) }
    ensures few { OnOk result (walk.new.found.bare ≤ walk.old.found.bare + 256) }
{
    let node = walk.found.nodes.as_slice()[index];
    let trail = walk.trails.as_slice()[index].copy()?;
    for port in 0..node.ports {
        look_behind(
            alloc,
            net,
            banks,
            source,
            walk,
            node,
            trail.as_slice(),
            port,
        )?;
    }
    Ok(())
}

/// Looks behind a port of a found node, unless it was found by that port; this is the trail to the node.
fn look_behind<B: RegisterSlots>(
    alloc: Global,
    net: &mut Net,
    banks: &mut B,
    source: Source,
    walk: &mut Walk,
    node: FoundNode,
    trail: &[u8],
    port: u8,
) -> Result<(), Memory>
    requires settled { IsSettledNow net.old.present }
    requires source { IsSource net.old.present.tree source.node source.epid }
    requires known { AreKnown net.old.present.tree source.node walk.old.found.nodes walk.old.trails }
    requires trail { IsKnown net.old.present.tree source.node node trail.now }
    requires listed { IsListed walk.old.found.nodes node.instance }
    requires there { port < node.ports }
    requires few { walk.old.found.bare + 1 < 2 ^ 32 }
    ensures walks { OnOk result (WalksOn net.old.present.tree source.epid source.node
        (if not (is_arrival node port) then port_of node port ∷ [] else [])
        (record { walk = walk.old; net = net.old; banks = B.slots banks.old })
        (record { walk = walk.new; net = net.new; banks = B.slots banks.new })) }
    ensures few { OnOk result (walk.new.found.bare ≤ walk.old.found.bare + 1) }
{
    net.stands();
    if came_by(node, port) {
        return Ok(());
    }
    let ports = longer(alloc, trail, port)?;
    let behind = probe(alloc, net, banks, source, node, port, ports.as_slice())?;
    walk.add(node.instance, port, ports, behind)
}

/// Whether a node was found by this port; the host was found by none.
fn came_by(node: FoundNode, port: u8) -> bool
    ensures { result ≡ is_arrival node port }
{
    node.parent != node.instance && port == node.port
}

/// A trail with one port more.
fn longer(alloc: Global, trail: &[u8], port: u8) -> Result<Trail, Memory>
    ensures { IfOk result (λ made. made ≡ trail.now ++ port ∷ []) }
{
    let mut ports = Items::from_vec(Vec::from_slice(alloc, trail)?);
    ports.push(port)?;
    Ok(ports)
}

impl Walk {
    /// The walk from the node of a host, which alone is found.
    pub(crate) fn new(alloc: Global, source: Source) -> Result<Walk, Memory>
        ensures { IfOk result (λ walk. walk ≡ walk_from source.node source.epid) }
    {
        let mut nodes = Items::new(alloc);
        nodes.push(FoundNode {
            instance: source.node,
            kind: NodeKind::Endpoint,
            ports: 1,
            epid: source.epid,
            parent: source.node,
            parent_port: 0,
            port: 0,
        })?;
        let mut trails = Items::new(alloc);
        trails.push(Items::new(alloc))?;
        let lost = Items::new(alloc);
        let found = Found {
            nodes,
            bare: 0,
            lost,
        };
        Ok(Walk { found, trails })
    }

    /// What it found.
    pub(crate) fn into_found(self) -> Found
        ensures { result ≡ self.found }
    {
        let Walk { found, trails: _ } = self;
        found
    }

    /// Adds what is behind a port of a node, to which this trail leads.
    fn add(&mut self, node: u16, port: u8, trail: Trail, behind: Behind) -> Result<(), Memory>
        requires { self.old.found.bare + 1 < 2 ^ 32 }
        ensures { OnOk result (self.new ≡ added self.old node port trail behind) }
    {
        match behind {
            Behind::Node(found) => {
                self.found.nodes.push(found)?;
                self.trails.push(trail)?;
            }
            Behind::Bare => self.found.bare += 1,
            Behind::Lost => self.found.lost.push(LostPort { node, port })?,
        }
        Ok(())
    }
}
