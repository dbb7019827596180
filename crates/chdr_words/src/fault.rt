ghost use Rattle.std.specs.Prelude.{◌≡◌};
ghost use Rattle.chdr_words.specs.declared.fault.MsgFault.TheVariants as faults;

use rf_base::Memory;
use thiserror::Error;

/// Why a payload is no spelling of its kind; each fault prints as its name in a listing.
#[derive(Clone, Copy, Debug, PartialEq, Eq, Error)]
pub enum MsgFault {
    #[error("BadStatusLength")]
    BadStatusLength,
    #[error("BadCommandLength")]
    BadCommandLength,
    #[error("BadControlLength")]
    BadControlLength,
    #[error("BadManagement")]
    BadManagement,
    /// Only a management payload takes memory.
    #[error("out of memory")]
    Memory,
}

impl From<Memory> for MsgFault {
    ghost from_gives = { λ _ e. e ≡ faults.Memory };

    fn from(_: Memory) -> MsgFault {
        MsgFault::Memory
    }
}
