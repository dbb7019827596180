ghost use Rattle.std.specs.Prelude.{◌≡◌};

use rf_base::Memory;
use thiserror::Error;

/// Why an edge was refused.
#[derive(Clone, Copy, Debug, PartialEq, Eq, Error)]
pub enum ConnectFault {
    /// The one end is no output, or the other no input.
    #[error("BadPort")]
    BadPort,
    /// One of the two ports has an edge.
    #[error("PortTaken")]
    PortTaken,
    /// The edge would close a cycle.
    #[error("Cycle")]
    Cycle,
    #[error("out of memory")]
    Memory,
}

impl From<Memory> for ConnectFault {
    ghost use Rattle.graph_core.specs.declared.fault.ConnectFault.TheVariants.{Memory as memory};

    ghost from_gives = { λ _ fault. fault ≡ memory };

    fn from(_: Memory) -> ConnectFault {
        ConnectFault::Memory
    }
}

/// Why a value was refused.
#[derive(Clone, Copy, Debug, PartialEq, Eq, Error)]
pub enum SetFault {
    /// The block has no such port.
    #[error("NoProperty")]
    NoProperty,
    #[error("out of memory")]
    Memory,
}

impl From<Memory> for SetFault {
    ghost use Rattle.graph_core.specs.declared.fault.SetFault.TheVariants.{Memory as memory};

    ghost from_gives = { λ _ fault. fault ≡ memory };

    fn from(_: Memory) -> SetFault {
        SetFault::Memory
    }
}
