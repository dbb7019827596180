ghost use Rattle.std.specs.Prelude.{◌≡◌, ◌++◌, ℕ, List, [], ◌∷◌, Option, IfOk, IfSome, OnOk, OnErr, IsTrue, None, Some};
ghost use Rattle.block_registers.specs.Registers.{Registers};
ghost use Rattle.net_machine.specs.Begin.{begun, built};
ghost use Rattle.net_machine.specs.CanBegin.{CanBegin};
ghost use Rattle.net_machine.specs.Choice.{chosen, enabled_list, seed_after};
ghost use Rattle.net_machine.specs.Conditions.{enabled};
ghost use Rattle.net_machine.specs.State.{State};
ghost use Rattle.net_present.specs.Onward.{enabled_now};
ghost use Rattle.fabric_events.specs.Begun.{begun_now, built_now};
ghost use Rattle.fabric_events.specs.Choosing.{chosen_now, doable_now, seed_now};
ghost use Rattle.fabric_net.specs.Offering.{AreSupplied};
ghost use Rattle.fabric_net.specs.Standing.{IsResting, StandsFor};

use crate::epids::epids_are_short;
use fabric_events::Fabric;
use net_machine::{Event, RunPlan, Seed};
use net_nodes::Room;
use net_topology::Topology;
use rf_base::Memory;
use std::alloc::Global;
use std::marker::Model;

/// An event with the memory that it needs.
#[derive(Debug, Drop)]
pub(crate) struct Prepared {
    pub(crate) event: Event,
    /// For the answers of a management packet.
    pub(crate) room: Option<Room>,
}

/// The machine of a network as it goes on: it keeps a present, and stands for every state whose present that is.
///
/// Rule: docs/machine.md.
#[derive(Drop)]
pub struct Net {
    pub(crate) fabric: Fabric,
    pub(crate) journal: Vec<Event>,
    /// How many events happened since the last run began.
    pub(crate) steps: u64,
    pub(crate) prepared: Option<Prepared>,
}

impl Model for Net {
    ghost use Rattle.fabric_net.specs.NetView.{IsSound, NetSeen, view_of};

    ghost Value = { NetSeen };

    ghost view = { view_of };

    ghost invariant = { IsSound };
}

impl Net {
    /// The net of a tree, with nothing under way; its tables lead over each way, or have no entry.
    ///
    /// Rule: docs/machine.md, "How a run begins".
    pub fn build(alloc: Global, topology: &Topology, routed: bool) -> Result<Net, Memory>
        ensures present { IfOk result (λ net. net.present ≡ built_now topology.now routed) }
        ensures machine { IfOk result (λ net. (banks : List (Option Registers)) →
            StandsFor net.present (built topology.now routed banks)) }
        ensures rest { IfOk result (λ net. IsResting net.present) }
        ensures journal { IfOk result (λ net. net.journal ≡ []) }
        ensures prepared { IfOk result (λ net. net.prepared ≡ None) }
    {
        let plan = topology.plan();
        epids_are_short(plan.nodes.as_slice());
        let fabric = Fabric::build(alloc, topology, routed)?;
        Ok(Net {
            fabric,
            journal: Vec::new(alloc),
            steps: 0,
            prepared: None,
        })
    }

    /// A run of a plan begins: its streams and blocks are new, packets are counted anew, and the journal is empty.
    ///
    /// At `Err` nothing changes but that nothing is prepared. Rule: docs/machine.md, "How a run begins".
    pub fn begin(&mut self, plan: &RunPlan) -> Result<(), Memory>
        requires rest { IsResting self.old.present }
        requires can { CanBegin self.old.present.tree self.old.present.nodes plan.now }
        ensures present { OnOk result (self.new.present ≡ begun_now plan.now self.old.present) }
        ensures machine { OnOk result ((w : State) → StandsFor self.old.present w → StandsFor self.new.present (begun plan.now w)) }
        ensures journal { OnOk result (self.new.journal ≡ []) }
        ensures kept { OnErr result (self.new.present ≡ self.old.present) }
        ensures written { OnErr result (self.new.journal ≡ self.old.journal) }
        ensures prepared { self.new.prepared ≡ None }
    {
        self.prepared = None;
        self.fabric.begin(plan)?;
        self.journal.clear();
        self.steps = 0;
        Ok(())
    }

    /// Whether an event is enabled.
    pub fn enabled(&self, event: Event) -> bool
        ensures present { result ≡ enabled_now self.now.present event }
        ensures machine { (w : State) → StandsFor self.now.present w → result ≡ enabled w event }
    {
        self.fabric.enabled(event)
    }

    /// Whether an event can happen: besides, the packet that a Tx sends was offered, and those that are taken were
    /// handed out.
    pub fn doable(&self, event: Event) -> bool
        ensures { result ≡ doable_now self.now.present event }
    {
        self.fabric.doable(event)
    }

    /// The event that a seed chooses among those that can happen, takings left out; none if there is none. It is the
    /// machine's choice once each Tx has offered what it may send next.
    ///
    /// Rule: docs/machine.md, "Choosing".
    pub fn choose(&self, seed: &mut Seed) -> Option<Event>
        ensures event { result ≡ chosen_now seed.old.0 self.now.present }
        ensures doable { IfSome result (λ e. IsTrue (doable_now self.now.present e)) }
        ensures seed { seed.new.0 ≡ seed_now seed.old.0 self.now.present }
        ensures machine { (w : State) → StandsFor self.now.present w → AreSupplied self.now.present →
            (result ≡ chosen seed.old.0 w) × (seed.new.0 ≡ seed_after seed.old.0 (enabled_list w)) }
    {
        self.fabric.choose(seed)
    }

    /// There is a state for which the net stands, over any registers.
    pub fn stands(&self)
        ensures { (banks : List (Option Registers)) → (w : State) × StandsFor self.now.present w × (w.banks ≡ banks) }
    {
        let _tree = self.fabric.wires.plan();
    }

    /// The events since the last run began, in order.
    pub fn journal(&self) -> &[Event]
        ensures { result.now ≡ self.now.journal }
    {
        self.journal.as_slice()
    }
}
