//! A route between two EPIDs.
ghost use Rattle.std.specs.Prelude.{◌≡◌, ◌≢◌, IsSome};
ghost use Rattle.net_machine.specs.Nodes.{host_with};
ghost use Rattle.host_talk.specs.Settled.{IsSettledNow};
ghost use Rattle.found_nodes.specs.Found.{AreFound, found_with, has_end, is_end};
ghost use Rattle.route_writes.specs.Routing.{IsKnown, IsLocated, IsWriting, UnlessMemory, number_with, unknown_of};

use crate::RouteFault;
use crate::steps::add_way;
use crate::writes::{Ends, write_along};
use block_registers::RegisterSlots;
use chdr_words::{Epid, NodeKind};
use fabric_net::Net;
use rf_base::Items;
use std::alloc::Global;
use walk_books::{Found, FoundNode};

/// Writes a route between two EPIDs, by what a walk of this net found: at each crossbar and adapter on the way from a to
/// b, in order, the entries for both become the next links of the way. Returns how many nodes these are.
///
/// After `Unknown` nothing has changed. After `Lost` the nodes before the one that it names are written; after `Memory`
/// some may be, and the net is only good to be built anew. Rule: docs/control-and-discovery.md, "Discovery and routes".
pub fn write_route<B: RegisterSlots>(
    alloc: Global,
    net: &mut Net,
    banks: &mut B,
    host: Epid,
    found: &Found,
    a: Epid,
    b: Epid,
) -> Result<u32, RouteFault>
    requires host { IsSome (host_with net.old.present.tree host) }
    requires settled { IsSettledNow net.old.present }
    requires found { AreFound net.old.present.tree found.now.nodes }
    requires other { a ≢ b }
    ensures wrote { IsWriting found.now.nodes host a b (record { net = net.old; banks = B.slots banks.old }) result
        (record { net = net.new; banks = B.slots banks.new }) }
    ensures settled { UnlessMemory result (IsSettledNow net.new.present) }
    ensures tree { UnlessMemory result (net.new.present.tree ≡ net.old.present.tree) }
{
    net.stands();
    let nodes = found.nodes.as_slice();
    let at = match located(nodes, host, a, b) {
        Ok(at) => at,
        Err(epid) => return Err(RouteFault::Unknown { epid }),
    };
    let mut steps = Items::new(alloc);
    add_way(nodes, at.from, at.to, &mut steps)?;
    let node = at.host;
    let ends = Ends { node, host, a, b };
    write_along(alloc, net, banks, nodes, ends, steps.as_slice())
}

/// The first of these EPIDs that no found host or endpoint has: that of the host that writes a route, and of its ends.
pub fn unknown(nodes: &[FoundNode], host: Epid, a: Epid, b: Epid) -> Option<Epid>
    ensures { result ≡ unknown_of nodes.now host a b }
{
    match located(nodes, host, a, b) {
        Ok(_) => None,
        Err(epid) => Some(epid),
    }
}

/// The numbers of a host and of the ends of a route.
#[derive(Clone, Copy, Debug, PartialEq, Eq)]
struct Numbers {
    host: u16,
    from: u16,
    to: u16,
}

/// Finds the nodes of these EPIDs; else the first EPID that none has.
fn located(nodes: &[FoundNode], host: Epid, a: Epid, b: Epid) -> Result<Numbers, Epid>
    ensures { IsLocated nodes.now host a b result }
{
    let host = known(nodes, host)?;
    let from = known(nodes, a)?;
    let to = known(nodes, b)?;
    Ok(Numbers { host, from, to })
}

/// The number of the first host or endpoint with an EPID; else the EPID.
fn known(nodes: &[FoundNode], epid: Epid) -> Result<u16, Epid>
    ensures { IsKnown nodes.now epid result }
{
    match number_with(nodes, epid) {
        Some(node) => Ok(node),
        None => Err(epid),
    }
}

fn number_with(nodes: &[FoundNode], epid: Epid) -> Option<u16>
    ensures { result ≡ number_with nodes.now epid }
{
    let place = place_with(nodes, epid)?;
    Some(nodes[place].instance)
}

fn place_with(nodes: &[FoundNode], epid: Epid) -> Option<usize>
    ensures { result ≡ found_with nodes.now epid }
{
    nodes.iter().position(|node| has_end(node, epid))
}

fn has_end(node: &FoundNode, epid: Epid) -> bool
    ensures { result ≡ has_end epid node.now }
{
    is_end(node.kind) && node.epid.0 == epid.0
}

/// Whether nodes of this kind have an EPID.
fn is_end(kind: NodeKind) -> bool
    ensures { result ≡ is_end kind }
{
    match kind {
        NodeKind::Endpoint => true,
        NodeKind::Crossbar | NodeKind::Transport | NodeKind::Other(_) => false,
    }
}
