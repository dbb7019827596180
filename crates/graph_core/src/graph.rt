ghost use Rattle.std.specs.Prelude.{◌≡◌, ◌<◌, ◌↔◌, [], true, false, Err, IsTrue, IfOk, OnOk, OnErr, IfSome, IfNone, Contains, length};
ghost use Rattle.block_library.specs.Blocks.{FitsKind};
ghost use Rattle.graph_core.specs.Derivation.{Settles};
ghost use Rattle.graph_core.specs.Pairs.{Lacks, value_of};
ghost use Rattle.graph_core.specs.Refusals.{IsRefusal};
ghost use Rattle.graph_core.specs.State.{HasBadPort, HasCycle, HasNoPort, HasTakenPort, IsGraph};
ghost use Rattle.graph_core.specs.State.{state, with_edge, with_kind, with_user, with_values};

use crate::connect::refusal;
use crate::{ConnectFault, Edge, PortAt, PropAt, SetFault, Side, Values, ports_at};
use block_library::BlockKind;
use rf_base::{Items, Memory};
use std::alloc::Global;
use std::marker::Model;

/// The kinds of a graph's blocks, by their numbers.
pub type BlockKinds = Items<BlockKind>;

/// The edges of a graph, by their numbers.
pub type Edges = Items<Edge>;

/// Blocks, the edges between them, the values that a user set, and those of the last commit.
///
/// The graph is committed from a commit until the next change. Rule: docs/graph.md.
#[derive(Drop)]
pub struct Graph {
    kinds: BlockKinds,
    edges: Edges,
    users: Values,
    committed: Values,
    is_committed: bool,
    alloc: Global,
}

impl Model for Graph {
    ghost use Rattle.graph_core.specs.State.{State, IsGraph, state};

    ghost Value = { State };

    ghost view = { λ g. state g.kinds g.edges g.users g.committed g.is_committed };

    ghost invariant = { λ g. IsGraph (state g.kinds g.edges g.users g.committed g.is_committed) };
}

impl Graph {
    /// A graph without blocks, not committed.
    pub fn new(alloc: Global) -> Graph
        ensures { result ≡ state [] [] [] [] false }
    {
        Graph {
            kinds: Items::new(alloc),
            edges: Items::new(alloc),
            users: Values::new(alloc),
            committed: Values::new(alloc),
            is_committed: false,
            alloc,
        }
    }

    /// Adds a block and gives its number. The graph is uncommitted then.
    pub fn add(&mut self, kind: BlockKind) -> Result<u16, Memory>
        requires room { length self.old.diagram.kinds < 32 }
        requires kind { FitsKind kind }
        ensures number { IfOk result (λ number. number ≡ length self.old.diagram.kinds) }
        ensures ok { OnOk result (self.new ≡ with_kind self.old kind) }
        ensures err { OnErr result (self.new ≡ self.old) }
    {
        let number = self.kinds.len() as u16;
        self.kinds.push(kind)?;
        self.is_committed = false;
        Ok(number)
    }

    /// Adds an edge from an output to an input and gives its number. The graph is uncommitted then.
    pub fn connect(&mut self, from: PortAt, to: PortAt) -> Result<u16, ConnectFault>
        ensures bad { (result ≡ Err ConnectFault.BadPort) ↔ HasBadPort self.old from to }
        ensures taken { (result ≡ Err ConnectFault.PortTaken) ↔ HasTakenPort self.old from to }
        ensures cycle { (result ≡ Err ConnectFault.Cycle) ↔ HasCycle self.old from to }
        ensures number { IfOk result (λ number. number ≡ length self.old.diagram.edges) }
        ensures ok { OnOk result (self.new ≡ with_edge self.old (record { from = from; to = to })) }
        ensures err { OnErr result (self.new ≡ self.old) }
    {
        if let Some(fault) = refusal(self.kinds.as_slice(), self.edges.as_slice(), from, to) {
            return Err(fault);
        }
        let number = self.edges.len() as u16;
        self.edges.push(Edge { from, to })?;
        self.is_committed = false;
        Ok(number)
    }

    /// Sets the user's value of a property, in place of an earlier one.
    ///
    /// The graph is uncommitted then.
    pub fn set(&mut self, at: PropAt, value: u64) -> Result<(), SetFault>
        ensures absent { (result ≡ Err SetFault.NoProperty) ↔ HasNoPort self.old at }
        ensures ok { OnOk result (self.new ≡ with_user self.old at value) }
        ensures err { OnErr result (self.new ≡ self.old) }
    {
        if at.port >= ports_at(self.kinds.as_slice(), at.block, at.side) {
            return Err(SetFault::NoProperty);
        }
        self.users.put(at, value)?;
        self.is_committed = false;
        Ok(())
    }

    /// Why an edge would be refused; nothing if it can be added.
    pub fn refusal(&self, from: PortAt, to: PortAt) -> Option<ConnectFault>
        ensures { IsRefusal self.now.diagram.kinds self.now.diagram.edges from to result }
    {
        refusal(self.kinds.as_slice(), self.edges.as_slice(), from, to)
    }

    /// The kinds of the blocks.
    pub fn kinds(&self) -> &BlockKinds
        ensures kinds { result.now ≡ self.now.diagram.kinds }
        ensures graph { IsGraph self.now }
    {
        &self.kinds
    }

    /// The edges.
    pub fn edges(&self) -> &Edges
        ensures edges { result.now ≡ self.now.diagram.edges }
        ensures graph { IsGraph self.now }
    {
        &self.edges
    }

    /// The user's values.
    pub fn users(&self) -> &Values
        ensures users { result.now ≡ self.now.diagram.users }
        ensures graph { IsGraph self.now }
    {
        &self.users
    }

    /// An empty table with the graph's allocator.
    pub fn no_values(&self) -> Values
        ensures { result ≡ [] }
    {
        Values::new(self.alloc)
    }

    /// The user's value of a property.
    pub fn user(&self, at: PropAt) -> Option<u64>
        ensures value { result ≡ value_of self.now.diagram.users at }
        ensures held { IfSome result (λ value. Contains self.now.diagram.users (at, value)) }
        ensures none { IfNone result (Lacks self.now.diagram.users at) }
    {
        self.users.get(at)
    }

    /// The value of a property at the last commit.
    pub fn value(&self, at: PropAt) -> Option<u64>
        ensures value { result ≡ value_of self.now.committed at }
        ensures held { IfSome result (λ value. Contains self.now.committed (at, value)) }
        ensures none { IfNone result (Lacks self.now.committed at) }
    {
        self.committed.get(at)
    }

    /// Whether nothing changed since the last commit.
    pub fn is_committed(&self) -> bool
        ensures mark { result ≡ self.now.is_committed }
        ensures settled { IsTrue result → Settles self.now.diagram self.now.committed }
    {
        self.is_committed
    }

    /// Commits values that settle the graph, in place of those of the last commit.
    pub fn settle(&mut self, values: Values)
        requires { Settles self.old.diagram values }
        ensures { self.new ≡ with_values self.old values }
    {
        self.committed = values;
        self.is_committed = true;
    }
}
