//! Why a route was not written.
ghost use Rattle.std.specs.Prelude.{◌≡◌};

use chdr_words::Epid;
use rf_base::Memory;
use thiserror::Error;

/// Why a route was not written.
#[derive(Clone, Copy, Debug, PartialEq, Eq, Error)]
pub enum RouteFault {
    /// This EPID is that of no host or endpoint that was found: the host's, or that of an end. Nothing was asked.
    #[error("Unknown {}", .epid.0)]
    Unknown { epid: Epid },
    /// The write at the node of this number, or its answer, was lost. The nodes of the way before it are written, it is
    /// if its answer was lost, and nothing was asked at those behind it.
    #[error("Lost {instance}")]
    Lost { instance: u16 },
    /// There was no memory; some nodes may be written, and the net is only good to be built anew.
    #[error("out of memory")]
    Memory,
}

impl From<Memory> for RouteFault {
    ghost use Rattle.route_writes.specs.declared.fault.RouteFault.TheVariants.{Memory as memory};

    ghost from_gives = { λ _ fault. fault ≡ memory };

    fn from(_: Memory) -> RouteFault {
        RouteFault::Memory
    }
}
