//! How a net is built.
ghost use Rattle.std.specs.Prelude.{◌≡◌, IfOk, length, map};
ghost use Rattle.std.specs.List.{range_with_len};
ghost use Rattle.net_machine.specs.Begin.{built_node};
ghost use Rattle.fabric_lists.specs.SitesView.{working_in};
ghost use Rattle.fabric_events.specs.Begun.{built_now};
ghost use Rattle.fabric_events.specs.Fabrics.{IsSound, present_of};

use crate::fabric::Fabric;
use fabric_flags::Flags;
use fabric_lists::{Queues, Streams, built_sites};
use fabric_nodes::Wires;
use net_machine::RunPlan;
use net_topology::Topology;
use rf_base::{Items, Memory};
use std::alloc::Global;

impl Fabric {
    /// The net of a tree, with nothing under way; its tables lead over each way, or have no entry.
    ///
    /// Rule: docs/machine.md, "How a run begins".
    pub fn build(alloc: Global, topology: &Topology, routed: bool) -> Result<Fabric, Memory>
        ensures sound { IfOk result IsSound }
        ensures present { IfOk result (λ f. present_of f ≡ built_now topology.now routed) }
    {
        let wires = Wires::new(alloc, topology)?;
        let plan = topology.plan();
        let queues = Queues::new(alloc, 4 * plan.links.len(), plan.room)?;
        let sites = built_sites(alloc, topology, &wires, routed)?;
        let working = idle_flags(alloc, topology, routed)?;
        let streams = Streams::new(alloc, Vec::new(alloc))?;
        let feeding = Flags::new(alloc, 0)?;
        Ok(Fabric {
            wires,
            plan: RunPlan {
                streams: Items::new(alloc),
                blocks: Items::new(alloc),
                faults: Items::new(alloc),
            },
            queues,
            sites,
            working,
            streams,
            blocks: Vec::new(alloc),
            feeding,
            faults: Items::new(alloc),
            requests: 0,
            answers: 0,
        })
    }
}

/// The flags of the nodes of a tree as they are built: nothing is to leave any.
fn idle_flags(alloc: Global, topology: &Topology, routed: bool) -> Result<Flags, Memory>
    ensures { IfOk result (λ flags. flags
        ≡ working_in (map (built_node topology.now routed) (range_with_len 0 (length topology.now.nodes)))) }
{
    let plan = topology.plan();
    let flags = Flags::new(alloc, plan.nodes.len())?;
    Ok(flags)
}
