//! The way between two found nodes.
ghost use Rattle.std.specs.Prelude.{◌≡◌, ◌++◌, position, OnOk};
ghost use Rattle.net_topology.specs.Tree.{IsTree};
ghost use Rattle.net_topology.specs.declared.plan.Plan.{Plan};
ghost use Rattle.found_nodes.specs.Found.{AreFound, HaveParents, IsListed, is_number, place_of};
ghost use Rattle.route_writes.specs.Steps.{step_down, step_up, way_steps};

use rf_base::{Items, Memory};
use walk_books::FoundNode;

/// A step of a walker from one node to the next.
#[derive(Clone, Copy, Debug, PartialEq, Eq)]
pub(crate) struct Step {
    /// By which port it leaves the first node.
    pub(crate) port: u8,
    /// The number of the next node.
    pub(crate) node: u16,
    /// By which port it comes there.
    pub(crate) arrival: u8,
}

pub(crate) type Steps = Items<Step>;

/// Appends the steps from one found node to another, by their numbers.
///
/// A node is listed behind its parent. So of two nodes the one that is listed later is on no way between others that
/// are listed before it: the way goes over its parent.
pub(crate) fn add_way(
    nodes: &[FoundNode],
    from: u16,
    to: u16,
    steps: &mut Steps,
) -> Result<(), Memory>
    requires parents { HaveParents nodes.now }
    requires from { IsListed nodes.now from }
    requires to { IsListed nodes.now to }
    ensures { OnOk result ((tree : Plan) → IsTree tree → AreFound tree nodes.now → steps.new ≡ steps.old ++ way_steps tree from to) }
{
    let from_place = place_of(nodes, from);
    let to_place = place_of(nodes, to);
    if to_place < from_place {
        let node = nodes[from_place];
        steps.push(up(node))?;
        return add_way(nodes, node.parent, to, steps);
    }
    if from_place < to_place {
        let node = nodes[to_place];
        add_way(nodes, from, node.parent, steps)?;
        steps.push(down(node))?;
    }
    Ok(())
}

/// The place of the first node with a number, and behind all if there is none.
pub(crate) fn place_of(nodes: &[FoundNode], instance: u16) -> usize
    ensures { result ≡ place_of nodes.now instance }
{
    match first_numbered(nodes, instance) {
        Some(place) => place,
        None => nodes.len(),
    }
}

fn first_numbered(nodes: &[FoundNode], instance: u16) -> Option<usize>
    ensures { result ≡ position (is_number instance) nodes.now }
{
    nodes.iter().position(|node| node.instance == instance)
}

fn up(node: FoundNode) -> Step
    ensures { result ≡ step_up node }
{
    Step {
        port: node.port,
        node: node.parent,
        arrival: node.parent_port,
    }
}

fn down(node: FoundNode) -> Step
    ensures { result ≡ step_down node }
{
    Step {
        port: node.parent_port,
        node: node.instance,
        arrival: node.port,
    }
}
