ghost use Rattle.std.specs.Prelude.{◌≡◌, ◌↔◌, [], IsTrue};

use crate::kinds::are_names;
use block_library::BlockKind;
use chdr_words::{Epid, EpidList};
use graph_core::{PortAt, Side};
use net_machine::StreamPlans;
use rf_base::Items;
use std::alloc::Global;

/// A block on its endpoints.
#[derive(Debug, Drop, PartialEq, Eq)]
pub struct PlacedBlock {
    pub kind: BlockKind,
    /// The EPIDs of its inputs, in order.
    pub ins: EpidList,
    /// The EPIDs of its outputs, in order.
    pub outs: EpidList,
    /// How many packets a Tx makes, at most 16,384; 0 at every other kind.
    pub packets: u32,
    /// The time of a Tx's first sample in ticks, if its packets tell their times.
    pub time: Option<u64>,
}

impl PlacedBlock {
    ghost use Rattle.run_plans.specs.Layouts.{FitsPlaced, ends_of};

    /// Whether the numbers are in their ranges, and there is an EPID other than 0 for each port.
    pub fn fits(&self) -> bool
        ensures { IsTrue result ↔ FitsPlaced self.now }
    {
        self.kind.fits()
            && self.ins.len() == self.kind.inputs() as usize
            && self.outs.len() == self.kind.outputs() as usize
            && are_names(self.ins.as_slice())
            && are_names(self.outs.as_slice())
            && self.packets <= 16384
    }

    /// The EPIDs of its ports on one side.
    pub fn ends(&self, side: Side) -> &EpidList
        ensures { result.now ≡ ends_of side self.now }
    {
        match side {
            Side::Into => &self.ins,
            Side::Out => &self.outs,
        }
    }
}

/// Blocks, by their numbers.
pub type PlacedBlocks = Items<PlacedBlock>;

/// The blocks of a graph on their endpoints, and the streams along its edges.
///
/// Block b is that of number b in the graph, and stream s is along edge s.
#[derive(Debug, Drop, PartialEq, Eq)]
pub struct Layout {
    pub blocks: PlacedBlocks,
    pub streams: StreamPlans,
}

impl Layout {
    ghost use Rattle.run_plans.specs.Layouts.{IsLayout, end_at};

    /// A layout of nothing, and so of a graph without blocks.
    pub fn new(alloc: Global) -> Layout
        ensures value { result ≡ record { blocks = []; streams = [] } }
        ensures empty { IsLayout (record { kinds = []; edges = []; users = [] }) result }
    {
        Layout {
            blocks: Items::new(alloc),
            streams: Items::new(alloc),
        }
    }

    /// The EPID of a port on one side.
    pub fn end(&self, side: Side, at: PortAt) -> Option<Epid>
        ensures { result ≡ end_at side self.now at.block at.port }
    {
        let block = self.blocks.as_slice().get(at.block as usize)?;
        block.ends(side).as_slice().get(at.port as usize).copied()
    }
}
