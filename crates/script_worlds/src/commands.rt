//! The commands that let no event happen.
ghost use Rattle.std.specs.Prelude.{◌≡◌, ◌<◌, ◌^◌, IfErr, IfOk, OnErr, OnOk, slice_set};
ghost use Rattle.net_topology.specs.Tree.{FitsPlan};
ghost use Rattle.property_resolver.specs.Causes.{IsCause};
ghost use Rattle.property_resolver.specs.Outcome.{IsCommitted, OkWhereSettled, UnsettledWhereMissing};
ghost use Rattle.run_plans.specs.Layouts.{FitsPlaced, FitsValue};
ghost use Rattle.stream_endpoint.specs.Flow.{IsValid};
ghost use Rattle.script_worlds.specs.Books.{IsBlockBook, IsCommitBook, IsConnectBook, IsNetBook, IsSetBook, IsUnloadBook};
ghost use Rattle.script_worlds.specs.WorldView.{BuiltStands, new_net};
ghost use Rattle.script_worlds.specs.Worlds.{IsAfterCommit, UnlessRefused, unless_refused, with_joined, with_placed, with_set, with_tree};

use crate::World;
use crate::told::{of_block, of_connect};
use block_registers::RegisterSlots;
use fabric_net::Net;
use graph_core::{Graph, PortAt, PropAt};
use net_topology::{Plan, Topology};
use property_resolver::{CommitFault, Steps, commit};
use rf_base::Memory;
use run_plans::{Layout, PlacedBlock, Terms};
use script_books::{Book, Refusal};
use std::marker::Brand;
use std::sync::ledger::{Blank, Ledger};

impl World {
    /// Makes a network with routed or empty tables, in place of all that the world had.
    pub fn net(&mut self, plan: &Plan, routed: bool) -> Result<Book, Memory>
        requires { FitsPlan plan.now }
        ensures book { IfOk result (IsNetBook plan.now) }
        ensures setup { IfOk result (λ book. self.new.setup ≡ unless_refused book self.old.setup (with_tree plan.now)) }
        ensures net { IfOk result (λ book. self.new.net ≡ unless_refused book self.old.net (Some (new_net plan.now routed))) }
        ensures machine { IfOk result (λ book. UnlessRefused book (BuiltStands plan.now routed)) }
    {
        let alloc = self.alloc;
        match Topology::check(alloc, plan) {
            Ok(topology) => {
                let net = Net::build(alloc, &topology, routed)?;
                *self = World {
                    topology: Some(topology),
                    net: Some(net),
                    graph: Graph::new(alloc),
                    layout: Layout::new(alloc),
                    found: None,
                    alloc,
                };
                Ok(Book::Net)
            }
            Err(fault) => Ok(Book::Refused(Refusal::of_plan(fault)?)),
        }
    }

    /// Places a block on endpoints.
    pub fn block(&mut self, block: PlacedBlock) -> Result<Book, Memory>
        requires { FitsPlaced block }
        ensures book { IfOk result (IsBlockBook self.old.setup block) }
        ensures setup { IfOk result (λ book. self.new.setup
            ≡ unless_refused book self.old.setup (with_placed self.old.setup block)) }
        ensures net { OnOk result (self.new.net ≡ self.old.net) }
    {
        let Some(topology) = &self.topology else {
            return Ok(Book::Refused(Refusal::NoNet));
        };
        if let Some(refusal) = self.layout.block_refusal(topology, &block) {
            return Ok(Book::Refused(of_block(refusal)));
        }
        match self.layout.place(&mut self.graph, block) {
            Ok(number) => Ok(Book::Block(number)),
            Err(Memory) => {
                *self = World::new(self.alloc);
                Err(Memory)
            }
        }
    }

    /// Joins an output to an input by an edge, with a stream along it.
    pub fn connect(&mut self, from: PortAt, to: PortAt, terms: Terms) -> Result<Book, Memory>
        requires start { terms.start < 2 ^ 40 }
        requires flow { IsValid terms.flow }
        ensures book { IfOk result (IsConnectBook self.old.setup from to) }
        ensures setup { IfOk result (λ book. self.new.setup
            ≡ unless_refused book self.old.setup (with_joined self.old.setup from to terms)) }
        ensures net { OnOk result (self.new.net ≡ self.old.net) }
    {
        if self.topology.is_none() {
            return Ok(Book::Refused(Refusal::NoNet));
        }
        if let Some(refusal) = self.layout.connect_refusal(&self.graph, from, to) {
            return Ok(Book::Refused(of_connect(refusal)));
        }
        match self.layout.connect(&mut self.graph, from, to, terms) {
            Ok(number) => Ok(Book::Connect(number)),
            Err(Memory) => {
                *self = World::new(self.alloc);
                Err(Memory)
            }
        }
    }

    /// Sets the user's value of a property.
    pub fn set(&mut self, at: PropAt, value: u64) -> Result<Book, Memory>
        requires { FitsValue at.prop value }
        ensures book { IfOk result (IsSetBook self.old.setup at) }
        ensures setup { IfOk result (λ book. self.new.setup
            ≡ unless_refused book self.old.setup (with_set self.old.setup at value)) }
        ensures net { OnOk result (self.new.net ≡ self.old.net) }
    {
        if self.topology.is_none() {
            return Ok(Book::Refused(Refusal::NoNet));
        }
        match self.layout.set(&mut self.graph, at, value) {
            Ok(()) => Ok(Book::Set),
            Err(fault) => Ok(Book::Refused(Refusal::of_set(fault)?)),
        }
    }

    /// Works out the values of all properties, and commits them.
    ///
    /// Which of several clashes is named is left open.
    pub fn commit(&mut self) -> Result<Book, Memory>
        ensures book { IfOk result (IsCommitBook self.old.setup) }
        ensures setup { IfOk result (λ book. IsAfterCommit book self.old.setup self.new.setup) }
        ensures net { OnOk result (self.new.net ≡ self.old.net) }
    {
        if self.topology.is_none() {
            return Ok(Book::Refused(Refusal::NoNet));
        }
        if let Err(fault) = commit_counted::<Brand>(Blank::new(1), &mut self.graph) {
            return Ok(Book::Refused(Refusal::of_commit(fault)?));
        }
        Ok(Book::Commit)
    }
}

/// Takes the bank of a port out and drops it; this needs no network.
pub fn unload<B: RegisterSlots>(port: u16, banks: &mut B) -> Book
    ensures book { IsUnloadBook (B.slots banks.old) port result }
    ensures slots { B.slots banks.new ≡ unless_refused result (B.slots banks.old) (slice_set (B.slots banks.old) port None) }
{
    if banks.discard(port) {
        Book::Unload
    } else {
        Book::Refused(Refusal::NotLoaded { port })
    }
}

/// Commits a graph, with a counter of its own.
fn commit_counted<L: Ledger>(blank: Blank, graph: &mut Graph) -> Result<(), CommitFault>
    requires name { blank.name ≡ L.name }
    requires parts { blank.parts ≡ L.parts }
    requires some { 0 < blank.parts }
    ensures committed { OnOk result (IsCommitted graph.old graph.new) }
    ensures settled { OkWhereSettled graph.old.diagram result }
    ensures cause { IfErr result (IsCause graph.old.diagram) }
    ensures unsettled { UnsettledWhereMissing graph.old.diagram result }
    ensures kept { OnErr result (graph.new ≡ graph.old) }
{
    commit(graph, &mut Steps::<L>::open(blank))
}
