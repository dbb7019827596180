use chdr_words::Epid;
use thiserror::Error;

/// Why a block can't be placed; of several causes the first in this order.
#[derive(Clone, Copy, Debug, PartialEq, Eq, Error)]
pub enum BlockRefusal {
    /// 32 blocks are there.
    #[error("TooManyBlocks")]
    TooManyBlocks,
    /// No node of the sort that the block stands on has this EPID; the first one, inputs before outputs.
    #[error("NoEndpoint {}", .epid.0)]
    NoEndpoint { epid: Epid },
    /// This side of the EPID has a block, or the EPID stands earlier in the same list; the first one.
    #[error("EndpointTaken {}", .epid.0)]
    EndpointTaken { epid: Epid },
}

/// Why two ports can't be connected; of several causes the first in this order.
#[derive(Clone, Copy, Debug, PartialEq, Eq, Error)]
pub enum ConnectRefusal {
    /// 16 streams are there.
    #[error("TooManyStreams")]
    TooManyStreams,
    /// The one end is no output, or the other no input.
    #[error("BadPort")]
    BadPort,
    /// One of the two ports has a stream.
    #[error("PortTaken")]
    PortTaken,
    /// The stream would close a cycle.
    #[error("Cycle")]
    Cycle,
    /// Both ends have this EPID.
    #[error("Loop {}", .epid.0)]
    Loop { epid: Epid },
}

/// Why a run can't begin; of several causes the first in this order.
#[derive(Clone, Copy, Debug, PartialEq, Eq, Error)]
pub enum RunRefusal {
    /// The first block with a port without a stream.
    #[error("OpenPort {block}")]
    OpenPort { block: u16 },
    /// The first stream that the tables don't lead from its producer to its consumer, and back.
    #[error("Unrouted {stream}")]
    Unrouted { stream: u16 },
    /// The first stream with a packet above the `max` of its flow.
    #[error("TooBig {stream}")]
    TooBig { stream: u16 },
    /// The first stream that may have more than 16,384 packets.
    #[error("TooMuch {stream}")]
    TooMuch { stream: u16 },
}
