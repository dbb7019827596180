//! How a run begins.
ghost use Rattle.std.specs.Prelude.{◌≡◌, ◌≤◌, length, OnOk, OnErr};
ghost use Rattle.net_machine.specs.CanBegin.{FitsRun};
ghost use Rattle.fabric_events.specs.Begun.{begun_now};
ghost use Rattle.fabric_events.specs.Fabrics.{IsSound, present_of};

use crate::fabric::Fabric;
use fabric_lists::{fed_blocks, opened_streams, unfed_blocks};
use net_machine::RunPlan;
use rf_base::{Copyable, Memory};

impl Fabric {
    /// A run of a plan begins: its streams and blocks are new, and packets are counted anew.
    ///
    /// At `Err` nothing changes. Rule: docs/machine.md, "How a run begins".
    pub fn begin(&mut self, plan: &RunPlan) -> Result<(), Memory>
        requires sound { IsSound self.old }
        requires fits { FitsRun plan.now }
        requires few_streams { length plan.now.streams ≤ 16 }
        requires few_blocks { length plan.now.blocks ≤ 32 }
        ensures sound { IsSound self.new }
        ensures ok { OnOk result (present_of self.new ≡ begun_now plan.now (present_of self.old)) }
        ensures err { OnErr result (self.new ≡ self.old) }
    {
        let alloc = *self.streams.allocator();
        let streams = opened_streams(alloc, plan)?;
        let blocks = unfed_blocks(alloc, plan)?;
        let feeding = fed_blocks(alloc, plan)?;
        let copy = plan.copy()?;
        let faults = plan.faults.copy()?;
        self.plan = copy;
        self.streams = streams;
        self.blocks = blocks;
        self.feeding = feeding;
        self.faults = faults;
        self.requests = 0;
        self.answers = 0;
        Ok(())
    }
}
