ghost use Rattle.std.specs.Prelude.{◌≡◌, ◌↔◌, ◌<◌, ◌≤◌, ℕ, Some, IsTrue, MatchOption, IfOk, OnOk, OnErr, length, ◌||◌, if◌then◌else◌};
ghost use Rattle.graph_core.specs.State.{with_kind};
ghost use Rattle.net_machine.specs.CanBegin.{stands_at};
ghost use Rattle.net_machine.specs.Nodes.{is_endpoint, is_host, planned};
ghost use Rattle.net_machine.specs.Plans.{is_rx, is_tx};
ghost use Rattle.run_plans.specs.Firsts.{EachPlace, IsFirstWithout};
ghost use Rattle.run_plans.specs.Layouts.{FitsPlaced, IsLayout, StandIn, StandsAtNode, StandsIn, end_at, in_at, out_at};
ghost use Rattle.net_topology.specs.declared.plan.Plan.{Plan};
ghost use Rattle.run_plans.specs.Changes.{with_block};
ghost use Rattle.run_plans.specs.Refusals.{IsBlockRefusal, IsFirstOf, IsFree, IsUnused};

use crate::kinds::{is_among, is_on_host};
use crate::{BlockRefusal, Layout, PlacedBlock};
use block_library::BlockKind;
use chdr_words::Epid;
use graph_core::{Graph, Side};
use net_topology::{NodePlan, Topology};
use rf_base::Memory;

impl Layout {
    /// Why a block can't be placed; nothing if it can.
    ///
    /// Rule: docs/graph.md, "Blocks and streams".
    pub fn block_refusal(&self, tree: &Topology, block: &PlacedBlock) -> Option<BlockRefusal>
        ensures { IsBlockRefusal tree.now self.now block.now result }
    {
        if self.blocks.len() >= 32 {
            return Some(BlockRefusal::TooManyBlocks);
        }
        if let Some(epid) = nowhere(tree, block) {
            return Some(BlockRefusal::NoEndpoint { epid });
        }
        if let Some(epid) = self.used(block) {
            return Some(BlockRefusal::EndpointTaken { epid });
        }
        None
    }

    /// Places a block, and returns its number.
    ///
    /// At `Err` the layout stays, and the graph may have the block.
    pub fn place(&mut self, graph: &mut Graph, block: PlacedBlock) -> Result<u16, Memory>
        requires layout { IsLayout graph.old.diagram self.old }
        requires fits { FitsPlaced block }
        requires room { length self.old.blocks < 32 }
        requires free { IsFree self.old block }
        ensures number { IfOk result (λ number. number ≡ length self.old.blocks) }
        ensures ok { OnOk result (self.new ≡ with_block self.old block) }
        ensures graph { OnOk result (graph.new ≡ with_kind graph.old block.kind) }
        ensures kept { OnOk result (IsLayout graph.new.diagram self.new) }
        ensures stands { (tree : Plan) → StandIn tree self.old → StandsIn tree block →
            OnOk result (StandIn tree self.new) }
        ensures err { OnErr result (self.new ≡ self.old) }
    {
        let number = graph.add(block.kind)?;
        self.blocks.push(block)?;
        Ok(number)
    }

    /// The first EPID of the block that isn't free on its side.
    fn used(&self, block: &PlacedBlock) -> Option<Epid>
        ensures { MatchOption result
            (IsFree self.now block.now)
            (IsFirstOf (IsUnused (in_at self.now) block.now.ins) (IsUnused (out_at self.now) block.now.outs) block.now) }
    {
        match self.used_among(Side::Into, block.ins.as_slice()) {
            Some(epid) => Some(epid),
            None => self.used_among(Side::Out, block.outs.as_slice()),
        }
    }

    fn used_among(&self, side: Side, epids: &[Epid]) -> Option<Epid>
        ensures { MatchOption result
            (EachPlace (IsUnused (end_at side self.now) epids.now) epids.now)
            (IsFirstWithout (IsUnused (end_at side self.now) epids.now) epids.now) }
    {
        for (place, epid) in epids.iter().enumerate() {
            if !self.is_unused(side, epids, place, *epid) {
                return Some(*epid);
            }
        }
        None
    }

    /// Whether no block has the EPID on the side, nor an earlier place of the list.
    fn is_unused(&self, side: Side, epids: &[Epid], place: usize, epid: Epid) -> bool
        requires { place ≤ length epids.now }
        ensures { IsTrue result ↔ IsUnused (end_at side self.now) epids.now place epid }
    {
        !self.has_end(side, epid) && !is_among(epid, &epids[..place])
    }

    /// Whether a port on the side is at the EPID.
    fn has_end(&self, side: Side, epid: Epid) -> bool
        ensures { IsTrue result ↔ ((b : ℕ) × (i : ℕ) × (end_at side self.now b i ≡ Some epid)) }
    {
        for block in self.blocks.as_slice() {
            if is_among(epid, block.ends(side).as_slice()) {
                return true;
            }
        }
        false
    }
}

/// The first EPID of the block that no node of its sort has.
fn nowhere(tree: &Topology, block: &PlacedBlock) -> Option<Epid>
    ensures { MatchOption result
        (StandsIn tree.now block.now)
        (IsFirstOf (StandsAtNode tree.now block.now.kind) (StandsAtNode tree.now block.now.kind) block.now) }
{
    match nowhere_among(tree, block.kind, block.ins.as_slice()) {
        Some(epid) => Some(epid),
        None => nowhere_among(tree, block.kind, block.outs.as_slice()),
    }
}

fn nowhere_among(tree: &Topology, kind: BlockKind, epids: &[Epid]) -> Option<Epid>
    ensures { MatchOption result
        (EachPlace (StandsAtNode tree.now kind) epids.now)
        (IsFirstWithout (StandsAtNode tree.now kind) epids.now) }
{
    for epid in epids {
        if !stands_at(tree, kind, *epid) {
            return Some(*epid);
        }
    }
    None
}

/// Whether a node of the sort on which the kind stands has the EPID.
fn stands_at(tree: &Topology, kind: BlockKind, epid: Epid) -> bool
    ensures { result ≡ stands_at tree.now kind epid }
{
    match tree.node_of(epid) {
        Some(x) => match planned(tree, x) {
            Some(node) => stands_on(kind, node),
            None => false,
        },
        None => false,
    }
}

/// The node of this number, as it was planned.
fn planned(tree: &Topology, x: u16) -> Option<NodePlan>
    ensures { result ≡ planned tree.now x }
{
    tree.plan().nodes.as_slice().get(x as usize).copied()
}

/// Whether the node is of the sort on which the kind stands.
fn stands_on(kind: BlockKind, node: NodePlan) -> bool
    ensures { result ≡ (if is_tx kind || is_rx kind then is_host else is_endpoint) node }
{
    if is_on_host(kind) {
        is_host(node)
    } else {
        is_endpoint(node)
    }
}

fn is_host(node: NodePlan) -> bool
    ensures { result ≡ is_host node }
{
    match node {
        NodePlan::Host { .. } => true,
        NodePlan::Crossbar { .. } | NodePlan::Adapter | NodePlan::Endpoint { .. } => false,
    }
}

fn is_endpoint(node: NodePlan) -> bool
    ensures { result ≡ is_endpoint node }
{
    match node {
        NodePlan::Endpoint { .. } => true,
        NodePlan::Crossbar { .. } | NodePlan::Adapter | NodePlan::Host { .. } => false,
    }
}
