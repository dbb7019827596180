ghost use Rattle.std.specs.Prelude.{◌≡◌};
ghost use Rattle.chdr_stream.specs.Capture.{reason_of};
ghost use Rattle.capture_tool.specs.Outcome.{status_of};
ghost use Rattle.capture_tool.specs.Seen.{why_of};

use chdr_packets::PacketFault;
use chdr_words::MsgFault;
use thiserror::Error;

/// Why a capture or a pcap file ends before its bytes do; the last four are of files.
#[derive(Clone, Copy, Debug, PartialEq, Eq, Error)]
pub enum Why {
    #[error("ReservedType")]
    ReservedType,
    #[error("BadLength")]
    BadLength,
    #[error("Truncated")]
    Truncated,
    #[error("BadStatusLength")]
    BadStatusLength,
    #[error("BadCommandLength")]
    BadCommandLength,
    #[error("BadControlLength")]
    BadControlLength,
    #[error("BadManagement")]
    BadManagement,
    /// It goes on past 2^30 bytes.
    #[error("TooLong")]
    TooLong,
    #[error("BadMagic")]
    BadMagic,
    #[error("BadVersion")]
    BadVersion,
    #[error("BadLink")]
    BadLink,
    #[error("BadRecord")]
    BadRecord,
}

/// The first fault of a capture and the byte at which it stands.
#[derive(Clone, Copy, Debug, PartialEq, Eq, Error)]
#[error("fault {why} at {at}")]
pub struct Fault {
    pub at: u64,
    pub why: Why,
}

/// How many packets a capture has, and how many of them are canonical.
#[derive(Clone, Copy, Debug, PartialEq, Eq)]
pub struct Counts {
    pub packets: u64,
    pub canonical: u64,
}

/// What check tells of a capture.
#[derive(Clone, Copy, Debug, PartialEq, Eq)]
pub struct Seen {
    pub counts: Counts,
    pub fault: Option<Fault>,
}

/// The status of a capture whose text was written.
pub fn status_of(fault: Option<Fault>) -> u8
    ensures { result ≡ status_of fault }
{
    match fault {
        None => 0,
        Some(_) => 7,
    }
}

/// The word for a packet's fault; reading never finds that memory ran out.
pub fn why_of(fault: PacketFault) -> Why
    ensures { result ≡ why_of (reason_of fault) }
{
    match fault {
        PacketFault::ReservedType => Why::ReservedType,
        PacketFault::BadLength => Why::BadLength,
        PacketFault::Message(MsgFault::BadStatusLength) => Why::BadStatusLength,
        PacketFault::Message(MsgFault::BadCommandLength) => Why::BadCommandLength,
        PacketFault::Message(MsgFault::BadControlLength) => Why::BadControlLength,
        PacketFault::Message(MsgFault::BadManagement | MsgFault::Memory) | PacketFault::Memory => {
            Why::BadManagement
        }
    }
}
