//! How the nodes of a net are built.
ghost use Rattle.std.specs.Prelude.{◌≡◌, ◌<◌, true, length, map, IfOk, IfSome, if◌then◌else◌};
ghost use Rattle.std.specs.List.{range_with_len};
ghost use Rattle.net_machine.specs.Begin.{built_node, epids_of, exit_to};
ghost use Rattle.net_topology.specs.Tree.{IsTree};
ghost use Rattle.fabric_nodes.specs.Shapes.{HasPort, empty_table, shape_at};
ghost use Rattle.fabric_nodes.specs.Sites.{node_of};
ghost use Rattle.fabric_lists.specs.Routed.{routed_table};
ghost use Rattle.fabric_lists.specs.SitesView.{shapes_in, sites_of};

use chdr_words::{Epid, EpidList};
use fabric_nodes::{NodePart, Packets, Site, Wires};
use net_topology::{Plan, Topology};
use rf_base::{Items, Memory};
use std::alloc::Global;

/// The nodes of a tree, at which nothing lies; their tables lead over each way, or have no entry.
pub fn built_sites(
    alloc: Global,
    topology: &Topology,
    wires: &Wires,
    routed: bool,
) -> Result<Vec<Site>, Memory>
    requires { wires.now ≡ topology.now }
    ensures nodes { IfOk result (λ sites. (sites_of sites.items).nodes
        ≡ map (built_node topology.now routed) (range_with_len 0 (length topology.now.nodes))) }
    ensures shapes { IfOk result (λ sites. (sites_of sites.items).shapes ≡ shapes_in topology.now) }
{
    let plan = topology.plan();
    let epids = epids_of(alloc, plan)?;
    let mut sites = Vec::with_capacity(alloc, plan.nodes.len())?;
    for x in 0..plan.nodes.len() {
        sites.push(built_site(alloc, topology, wires, &epids, routed, x as u16)?)?;
    }
    Ok(sites)
}

/// The EPIDs of a network, in the order of its nodes.
fn epids_of(alloc: Global, plan: &Plan) -> Result<EpidList, Memory>
    ensures { IfOk result (λ epids. epids ≡ epids_of plan.now) }
{
    let mut epids = Items::new(alloc);
    for node in plan.nodes.as_slice() {
        match node.epid() {
            Some(epid) => epids.push(epid)?,
            None => {}
        }
    }
    Ok(epids)
}

/// Node `x`, at which nothing lies.
fn built_site(
    alloc: Global,
    topology: &Topology,
    wires: &Wires,
    epids: &EpidList,
    routed: bool,
    x: u16,
) -> Result<Site, Memory>
    requires there { x < length topology.now.nodes }
    requires same { wires.now ≡ topology.now }
    requires tree { IsTree topology.now }
    requires epids { epids.now ≡ epids_of topology.now }
    ensures node { IfOk result (λ site. node_of site ≡ built_node topology.now routed x) }
    ensures shape { IfOk result (λ site. site.node.shape ≡ shape_at topology.now x) }
{
    let mut node = NodePart::new(alloc, wires, x, epids)?;
    if routed {
        route(&mut node, topology, wires, epids, x);
    }
    Ok(Site {
        node,
        pending: Packets::new(alloc),
        requests: Packets::new(alloc),
        answers: Packets::new(alloc),
    })
}

/// Enters at node `x`, for each EPID, the port of the first link of the way there.
fn route(node: &mut NodePart, topology: &Topology, wires: &Wires, epids: &EpidList, x: u16)
    requires there { x < length topology.now.nodes }
    requires same { wires.now ≡ topology.now }
    requires tree { IsTree topology.now }
    requires epids { epids.now ≡ epids_of topology.now }
    requires shape { node.old.shape ≡ shape_at topology.now x }
    requires table { node.old.table ≡ empty_table (shape_at topology.now x) epids.now }
    ensures shape { node.new.shape ≡ shape_at topology.now x }
    ensures table { node.new.table ≡ routed_table (shape_at topology.now x) (exit_to topology.now x) epids.now }
{
    for epid in epids.as_slice() {
        match exit_to(topology, wires, x, *epid) {
            Some(port) => node.set(*epid, port),
            None => {}
        }
    }
}

/// The port of node `x` by which the way to the node of an EPID begins.
fn exit_to(topology: &Topology, wires: &Wires, x: u16, epid: Epid) -> Option<u8>
    requires there { x < length topology.now.nodes }
    requires same { wires.now ≡ topology.now }
    requires tree { IsTree topology.now }
    ensures value { result ≡ exit_to topology.now x epid }
    ensures port { IfSome result (HasPort (shape_at topology.now x)) }
{
    let node = wires.node_with(epid)?;
    let link = topology.next(x, node)?;
    Some(topology.start_at(link).1)
}
