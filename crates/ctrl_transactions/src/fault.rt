//! Why a control request was not answered.
ghost use Rattle.std.specs.Prelude.{◌≡◌};

use chdr_words::Epid;
use rf_base::Memory;
use thiserror::Error;

/// Why a transaction gave no acknowledgement.
#[derive(Clone, Copy, Debug, PartialEq, Eq, Error)]
pub enum CtrlFault {
    /// Tables don't lead to this EPID: to the destination, or back to the host. Nothing was asked.
    #[error("NoRoute {}", .epid.0)]
    NoRoute { epid: Epid },
    /// The request or its acknowledgement was lost; the operation may have been done.
    #[error("NoAck")]
    NoAck,
    /// There was no memory; the operation may have been done, and the net is only good to be built anew.
    #[error("out of memory")]
    Memory,
}

impl From<Memory> for CtrlFault {
    ghost use Rattle.ctrl_transactions.specs.declared.fault.CtrlFault.TheVariants.{Memory as memory};

    ghost from_gives = { λ _ fault. fault ≡ memory };

    fn from(_: Memory) -> CtrlFault {
        CtrlFault::Memory
    }
}
