use chdr_packets::{Packet, PacketFault};
use thiserror::Error;

/// A packet of a stream.
#[derive(Debug, Drop, PartialEq, Eq)]
pub struct Placed {
    /// The byte at which it begins.
    pub at: u64,
    /// Whether its bytes are its canonical spelling.
    pub canonical: bool,
    pub packet: Packet,
}

/// A packet of a stream that was only passed.
#[derive(Clone, Copy, Debug, PartialEq, Eq)]
pub struct Passed {
    /// The byte at which it begins.
    pub at: u64,
    /// Whether its bytes are a canonical spelling.
    pub canonical: bool,
}

/// Why a stream gives no packet; a fault prints as in a listing.
#[derive(Clone, Copy, Debug, PartialEq, Eq, Error)]
pub enum StreamFault {
    /// There is none at this byte, whatever follows.
    #[error("{fault} at {at}")]
    Bad { at: u64, fault: PacketFault },
    #[error("out of memory")]
    Memory,
}

/// Why a stream isn't at its end; it prints as in a listing.
#[derive(Clone, Copy, Debug, PartialEq, Eq, Error)]
pub enum FinishFault {
    /// Bytes are left that are no whole packet.
    #[error("Truncated at {at}")]
    Truncated { at: u64 },
}
