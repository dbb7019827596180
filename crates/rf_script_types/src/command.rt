use crate::Acts;
use block_library::BlockKind;
use chdr_words::{CtrlOp, Epid, EpidList, Words15};
use graph_core::{PortAt, PropAt};
use net_faults::Faults;
use net_topology::{LinkList, NodeList};
use rf_base::Items;
use stream_endpoint::{Flow, Policy};

/// A script: what is done, command by command.
///
/// Version 2 has names for nodes, larger limits, and the commands twin and duplex. A script has no
/// names: each stands for an EPID, which the reader puts in its place.
#[derive(Debug, Drop, PartialEq, Eq)]
pub struct Script {
    /// 1 or 2.
    pub version: u8,
    pub commands: ScriptCommands,
}

/// One command; docs/scripts-and-reports.md has what each does and when it is refused.
#[derive(Debug, Drop, PartialEq, Eq)]
pub enum ScriptCommand {
    /// A new network, of at most `limit` nodes.
    Net {
        nodes: NodeList,
        links: LinkList,
        room: u32,
        routed: bool,
        limit: u32,
    },
    /// The host walks the network.
    Discover {
        host: Epid,
        lose: Faults,
    },
    /// The host writes the way from an endpoint to another into the tables.
    Route {
        host: Epid,
        from: Epid,
        to: Epid,
        lose: Faults,
    },
    /// The host sends a control request.
    Control {
        host: Epid,
        to: Epid,
        port: u16,
        op: CtrlOp,
        addr: u32,
        words: Words15,
        enables: u8,
        lose: Faults,
    },
    /// The bank of a port is taken out and dropped.
    Unload {
        port: u16,
    },
    /// A block of the graph, on its endpoints.
    Block {
        kind: BlockKind,
        ins: EpidList,
        outs: EpidList,
        /// How many a tx gives, and 0 for every other kind.
        packets: u32,
        /// The timestamp of a tx's first packet.
        time: Option<u64>,
    },
    /// An edge of the graph, and the stream along it.
    Connect {
        from: PortAt,
        to: PortAt,
        flow: Flow,
        /// The number of the first packet.
        start: u64,
        policy: Policy,
    },
    /// A user's value of a property.
    Set {
        at: PropAt,
        value: u64,
    },
    Commit,
    /// A run of all streams.
    Run {
        seed: u64,
        trace: bool,
        peak: bool,
        lose: Faults,
    },
    /// A run over two devices, which link `cut` joins; of version 2.
    Twin {
        cut: u16,
        peak: bool,
        lose: Faults,
    },
    /// A run beside which a host acts; of version 2.
    Duplex {
        host: Epid,
        acts: Acts,
        seed: u64,
        peak: bool,
        lose: Faults,
    },
}

pub type ScriptCommands = Items<ScriptCommand>;
