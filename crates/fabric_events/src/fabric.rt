use fabric_flags::Flags;
use fabric_lists::{Queues, Streams};
use fabric_nodes::{Site, Wires};
use fabric_parts::BlockPart;
use net_faults::Faults;
use net_machine::RunPlan;

/// The parts of a net, by their numbers.
#[derive(Drop)]
pub struct Fabric {
    pub wires: Wires,
    pub plan: RunPlan,
    pub queues: Queues,
    pub sites: Vec<Site>,
    /// Which nodes have a request or an answer that is to leave them.
    pub working: Flags,
    pub streams: Streams,
    pub blocks: Vec<BlockPart>,
    /// Which blocks are fed in the network.
    pub feeding: Flags,
    /// The packets to lose.
    pub faults: Faults,
    /// How many requests and answers entered their first queue.
    pub requests: u64,
    pub answers: u64,
}
