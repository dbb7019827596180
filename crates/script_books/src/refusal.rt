//! Why a command was refused, and which refusal a part's fault is.
ghost use Rattle.std.specs.Prelude.{◌≡◌};
ghost use Rattle.script_books.specs.Refusals.{commit_refusal, connect_refusal, plan_refusal, set_refusal};

use chdr_words::Epid;
use graph_core::{ConnectFault, Prop, PropAt, Rule, SetFault};
use net_topology::PlanFault;
use property_resolver::CommitFault;
use rf_base::Memory;
use thiserror::Error;

/// Why a command was refused; its text is that of the report.
///
/// Rule: docs/report.md.
#[derive(Clone, Copy, Debug, PartialEq, Eq, Error)]
pub enum Refusal {
    // net
    #[error("TooManyNodes {count}")]
    TooManyNodes {
        count: u32,
    },
    #[error("DuplicateEpid {}", .epid.0)]
    DuplicateEpid {
        epid: Epid,
    },
    /// A node or a port of this link isn't there.
    #[error("BadPort {link}")]
    NetBadPort {
        link: u16,
    },
    #[error("PortTwice {link}")]
    PortTwice {
        link: u16,
    },
    /// The nodes of this link are the same, or already joined by earlier links.
    #[error("Cycle {link}")]
    NetCycle {
        link: u16,
    },
    /// The first node that isn't joined to node 0.
    #[error("Apart {node}")]
    Apart {
        node: u16,
    },
    #[error("BadLinkRoom {room}")]
    BadLinkRoom {
        room: u32,
    },
    // every other command
    /// No net command succeeded before.
    #[error("NoNet")]
    NoNet,
    // discover, route, control, duplex
    /// No host has this EPID.
    #[error("NoHost {}", .epid.0)]
    NoHost {
        epid: Epid,
    },
    /// The tables don't lead to this EPID.
    #[error("NoRoute {}", .epid.0)]
    NoRoute {
        epid: Epid,
    },
    /// The request or its answer was lost.
    #[error("NoAck")]
    NoAck,
    /// The last walk didn't find this EPID.
    #[error("Unknown {}", .epid.0)]
    Unknown {
        epid: Epid,
    },
    /// The request to this node or its answer was lost.
    #[error("Lost {instance}")]
    Lost {
        instance: u16,
    },
    // unload
    #[error("NotLoaded {port}")]
    NotLoaded {
        port: u16,
    },
    // block
    #[error("TooManyBlocks")]
    TooManyBlocks,
    /// No node of the sort that the block needs has this EPID.
    #[error("NoEndpoint {}", .epid.0)]
    NoEndpoint {
        epid: Epid,
    },
    #[error("EndpointTaken {}", .epid.0)]
    EndpointTaken {
        epid: Epid,
    },
    // connect
    #[error("TooManyStreams")]
    TooManyStreams,
    #[error("BadPort")]
    BadPort,
    #[error("PortTaken")]
    PortTaken,
    #[error("Cycle")]
    Cycle,
    /// Both ends of the stream have this EPID.
    #[error("Loop {}", .epid.0)]
    Loop {
        epid: Epid,
    },
    // set
    #[error("NoProperty")]
    NoProperty,
    // commit
    /// A property of that name has the value `held`, and the rule gives `derived`. Its text names the
    /// lesser value first.
    #[error("Clash {by} {prop} {} {}", lesser(.held, .derived), greater(.held, .derived))]
    Clash {
        by: Rule,
        prop: Prop,
        held: u64,
        derived: u64,
    },
    /// The block can't divide the value, or its product passes 2^64 - 1.
    #[error("NotWhole block {block} {value}")]
    NotWhole {
        block: u16,
        value: u64,
    },
    /// Nothing gives the property a value.
    #[error("Unsettled {at}")]
    Unsettled {
        at: PropAt,
    },
    // run, twin, duplex
    #[error("NotCommitted")]
    NotCommitted,
    /// The first block with a port without an edge.
    #[error("OpenPort {block}")]
    OpenPort {
        block: u16,
    },
    /// The tables don't lead from this stream's producer to its consumer, or not back.
    #[error("Unrouted {stream}")]
    Unrouted {
        stream: u16,
    },
    /// A packet of this stream is larger than its flow allows.
    #[error("TooBig {stream}")]
    TooBig {
        stream: u16,
    },
    /// This stream may have more than 16,384 packets.
    #[error("TooMuch {stream}")]
    TooMuch {
        stream: u16,
    },
    // twin
    /// There is no such link, or one of its ends is a host or an endpoint.
    #[error("BadCut {link}")]
    BadCut {
        link: u16,
    },
    /// The first block that is neither tx nor rx.
    #[error("TwinKind {block}")]
    TwinKind {
        block: u16,
    },
    // duplex
    /// An act waits for this stream, which isn't there.
    #[error("NoStream {stream}")]
    NoStream {
        stream: u16,
    },
    /// The program doesn't perform this command.
    #[error("NotBuilt")]
    NotBuilt,
}

impl Refusal {
    /// Why a network was refused.
    pub fn of_plan(fault: PlanFault) -> Result<Refusal, Memory>
        ensures { result ≡ plan_refusal fault }
    {
        match fault {
            PlanFault::TooManyNodes { count } => Ok(Refusal::TooManyNodes { count }),
            PlanFault::DuplicateEpid { epid } => Ok(Refusal::DuplicateEpid { epid }),
            PlanFault::BadPort { link } => Ok(Refusal::NetBadPort { link }),
            PlanFault::PortTwice { link } => Ok(Refusal::PortTwice { link }),
            PlanFault::Cycle { link } => Ok(Refusal::NetCycle { link }),
            PlanFault::Apart { node } => Ok(Refusal::Apart { node }),
            PlanFault::BadLinkRoom { room } => Ok(Refusal::BadLinkRoom { room }),
            PlanFault::Memory => Err(Memory),
        }
    }

    /// Why an edge was refused.
    pub fn of_connect(fault: ConnectFault) -> Result<Refusal, Memory>
        ensures { result ≡ connect_refusal fault }
    {
        match fault {
            ConnectFault::BadPort => Ok(Refusal::BadPort),
            ConnectFault::PortTaken => Ok(Refusal::PortTaken),
            ConnectFault::Cycle => Ok(Refusal::Cycle),
            ConnectFault::Memory => Err(Memory),
        }
    }

    /// Why a value was refused.
    pub fn of_set(fault: SetFault) -> Result<Refusal, Memory>
        ensures { result ≡ set_refusal fault }
    {
        match fault {
            SetFault::NoProperty => Ok(Refusal::NoProperty),
            SetFault::Memory => Err(Memory),
        }
    }

    /// Why a graph wasn't committed.
    pub fn of_commit(fault: CommitFault) -> Result<Refusal, Memory>
        ensures { result ≡ commit_refusal fault }
    {
        match fault {
            CommitFault::Clash {
                by,
                prop,
                held,
                derived,
            } => Ok(Refusal::Clash {
                by,
                prop,
                held,
                derived,
            }),
            CommitFault::NotWhole { block, value } => Ok(Refusal::NotWhole { block, value }),
            CommitFault::Unsettled { at } => Ok(Refusal::Unsettled { at }),
            CommitFault::Memory => Err(Memory),
        }
    }
}

fn lesser(one: &u64, other: &u64) -> u64 {
    (*one).min(*other)
}

fn greater(one: &u64, other: &u64) -> u64 {
    (*one).max(*other)
}
