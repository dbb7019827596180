use rf_base::Bytes;
use thiserror::Error;

/// What a record of a file is.
#[derive(Debug, Drop, PartialEq, Eq)]
pub enum PcapItem {
    /// A datagram of the port, with its source and destination ports and its payload.
    Datagram {
        number: u64,
        from: u16,
        to: u16,
        payload: Bytes,
    },
    /// A datagram of the port of which not all bytes were stored.
    Cut {
        number: u64,
    },
    /// Any other frame.
    Other {
        number: u64,
    },
}

/// Why a file ends before its bytes do, by the first test that fails.
#[derive(Clone, Copy, Debug, PartialEq, Eq, Error)]
pub enum PcapReason {
    /// The first four bytes are no magic number of a classic file.
    #[error("BadMagic")]
    BadMagic,
    /// The major version isn't 2.
    #[error("BadVersion")]
    BadVersion,
    /// The link type isn't Ethernet.
    #[error("BadLink")]
    BadLink,
    /// A record would store more than 262,144 bytes of a frame.
    #[error("BadRecord")]
    BadRecord,
}

/// Why a reader gives no item.
#[derive(Clone, Copy, Debug, PartialEq, Eq, Error)]
pub enum PcapFault {
    /// There is none at this byte, whatever follows.
    #[error("{reason} at {at}")]
    Bad { at: u64, reason: PcapReason },
    #[error("out of memory")]
    Memory,
}
