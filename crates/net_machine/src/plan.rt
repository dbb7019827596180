use block_library::BlockKind;
use chdr_words::{Epid, EpidList};
use net_faults::Faults;
use rf_base::{Copyable, Items, Memory};
use stream_endpoint::{Flow, Policy};

/// A stream of a run.
#[derive(Clone, Copy, Debug, PartialEq, Eq)]
pub struct StreamPlan {
    /// The EPID of the producer.
    pub from: Epid,
    /// The EPID of the consumer.
    pub to: Epid,
    pub flow: Flow,
    /// The number of the first packet, below 2^40; packets have it modulo 2^16.
    pub start: u64,
    pub policy: Policy,
}

/// The streams of a run, by their numbers.
pub type StreamPlans = Items<StreamPlan>;

/// A block of a run.
#[derive(Debug, Drop, PartialEq, Eq)]
pub struct BlockPlan {
    pub kind: BlockKind,
    /// The EPIDs of its inputs, in order.
    pub ins: EpidList,
    /// The EPIDs of its outputs, in order.
    pub outs: EpidList,
    /// How many packets a Tx makes; 0 at every other kind.
    pub packets: u32,
    /// Samples per packet, 1 to 1,022.
    pub spp: u32,
    /// Bytes per sample, 4 or 8.
    pub item: u32,
    /// The time of a Tx's first sample in ticks, if its packets tell their times.
    pub time: Option<u64>,
}

/// The blocks of a run, by their numbers.
pub type BlockPlans = Items<BlockPlan>;

/// What a run is made of.
#[derive(Debug, Drop, PartialEq, Eq)]
pub struct RunPlan {
    pub streams: StreamPlans,
    pub blocks: BlockPlans,
    /// The packets to lose.
    pub faults: Faults,
}

impl Copyable for StreamPlan {
    fn copy(&self) -> Result<StreamPlan, Memory> {
        Ok(*self)
    }
}

impl Copyable for BlockPlan {
    fn copy(&self) -> Result<BlockPlan, Memory> {
        Ok(BlockPlan {
            kind: self.kind,
            ins: self.ins.copy()?,
            outs: self.outs.copy()?,
            packets: self.packets,
            spp: self.spp,
            item: self.item,
            time: self.time,
        })
    }
}

impl Copyable for RunPlan {
    fn copy(&self) -> Result<RunPlan, Memory> {
        Ok(RunPlan {
            streams: self.streams.copy()?,
            blocks: self.blocks.copy()?,
            faults: self.faults.copy()?,
        })
    }
}
