ghost use Rattle.std.specs.Prelude.{◌≡◌, ◌≢◌, true, length, map, IfOk};
ghost use Rattle.std.specs.List.{range_with_len};
ghost use Rattle.graph_core.specs.declared.place.Prop.TheVariants.{Rate};
ghost use Rattle.net_topology.specs.declared.plan.Plan.{Plan};
ghost use Rattle.run_plans.specs.Layouts.{HasFittingUsers, IsLayout, StandIn};
ghost use Rattle.run_plans.specs.Planned.{first_side, first_value, plan_of, planned_at, planned_block};
ghost use Rattle.run_plans.specs.RunRefusals.{IsLaidOut};

use crate::{Layout, PlacedBlock};
use block_library::BlockKind;
use graph_core::{Graph, Prop, PropAt, Side};
use net_faults::Faults;
use net_machine::{BlockPlan, BlockPlans, RunPlan};
use rf_base::{Copyable, Items, Memory};
use std::alloc::Global;

impl Layout {
    /// The plan of a run that loses these packets.
    pub fn plan(&self, alloc: Global, graph: &Graph, faults: &Faults) -> Result<RunPlan, Memory>
        requires layout { IsLayout graph.now.diagram self.now }
        requires committed { graph.now.is_committed ≡ true }
        ensures value { IfOk result (λ plan. plan ≡ plan_of self.now graph.now.committed faults.now) }
        ensures laid { (tree : Plan) → StandIn tree self.now → IfOk result (IsLaidOut tree) }
    {
        let _ = graph.kinds();
        let _ = graph.is_committed();
        let blocks = self.block_plans(alloc, graph)?;
        Ok(RunPlan {
            streams: self.streams.copy()?,
            blocks,
            faults: faults.copy()?,
        })
    }

    fn block_plans(&self, alloc: Global, graph: &Graph) -> Result<BlockPlans, Memory>
        requires layout { IsLayout graph.now.diagram self.now }
        requires committed { graph.now.is_committed ≡ true }
        ensures { IfOk result (λ plans. plans ≡
            map (planned_at self.now graph.now.committed) (range_with_len 0 (length self.now.blocks))) }
    {
        let _ = graph.kinds();
        let mut plans = Items::new(alloc);
        for (number, block) in self.blocks.as_slice().iter().enumerate() {
            plans.push(block.planned(graph, number as u16)?)?;
        }
        Ok(plans)
    }
}

impl PlacedBlock {
    /// The block of this number, with the form of its packets.
    fn planned(&self, graph: &Graph, number: u16) -> Result<BlockPlan, Memory>
        requires users { HasFittingUsers graph.now.diagram }
        requires committed { graph.now.is_committed ≡ true }
        ensures { IfOk result (λ plan. plan ≡ planned_block graph.now.committed number self.now) }
    {
        Ok(BlockPlan {
            kind: self.kind,
            ins: self.ins.copy()?,
            outs: self.outs.copy()?,
            packets: self.packets,
            spp: first_value(graph, number, self.kind, Prop::Spp),
            item: first_value(graph, number, self.kind, Prop::Item),
            time: self.time,
        })
    }
}

/// The committed value of a property of the block's first port.
fn first_value(graph: &Graph, block: u16, kind: BlockKind, prop: Prop) -> u32
    requires users { HasFittingUsers graph.now.diagram }
    requires committed { graph.now.is_committed ≡ true }
    requires form { prop ≢ Rate }
    ensures { result ≡ first_value graph.now.committed block kind prop }
{
    let _ = graph.is_committed();
    let at = PropAt {
        block,
        side: first_side(kind),
        port: 0,
        prop,
    };
    graph.value(at).unwrap_or(0) as u32
}

/// The side of a block's first port.
fn first_side(kind: BlockKind) -> Side
    ensures { result ≡ first_side kind }
{
    if kind.inputs() == 0 {
        Side::Out
    } else {
        Side::Into
    }
}
