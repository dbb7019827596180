ghost use Rattle.std.specs.Prelude.{◌≡◌};
ghost use Rattle.chdr_packets.specs.declared.fault.PacketFault.TheVariants as faults;

use chdr_words::MsgFault;
use rf_base::Memory;
use thiserror::Error;

/// Why there is no packet at the front of bytes, by the first test that fails; each fault prints
/// as its name in a listing.
#[derive(Clone, Copy, Debug, PartialEq, Eq, Error)]
pub enum PacketFault {
    /// The type is 3 or 5.
    #[error("ReservedType")]
    ReservedType,
    /// Length is shorter than header, timestamp and metadata.
    #[error("BadLength")]
    BadLength,
    /// The payload is no spelling of its kind.
    #[error(transparent)]
    Message(MsgFault),
    #[error("out of memory")]
    Memory,
}

impl From<Memory> for PacketFault {
    ghost from_gives = { λ _ e. e ≡ faults.Memory };

    fn from(_: Memory) -> PacketFault {
        PacketFault::Memory
    }
}
