ghost use Rattle.std.specs.Prelude.{◌≡◌, max, min};

use graph_core::{Prop, PropAt, Rule};
use thiserror::Error;

/// Why a graph wasn't committed.
#[derive(Clone, Copy, Debug, PartialEq, Eq, Error)]
pub enum CommitFault {
    /// A property of that name has the value `held`, and the rule gives `derived`. Its text names the
    /// lesser value first.
    #[error("Clash {by} {prop} {} {}", lesser(.held, .derived), greater(.held, .derived))]
    Clash {
        by: Rule,
        prop: Prop,
        held: u64,
        derived: u64,
    },
    /// The block can't divide the value, or its product passes 2^64 - 1.
    #[error("NotWhole block {block} {value}")]
    NotWhole {
        block: u16,
        value: u64,
    },
    /// Nothing gives the property a value.
    #[error("Unsettled {at}")]
    Unsettled {
        at: PropAt,
    },
    #[error("out of memory")]
    Memory,
}

impl From<rf_base::Memory> for CommitFault {
    ghost use Rattle.property_resolver.specs.declared.fault.CommitFault.TheVariants.{Memory as memory};

    ghost from_gives = { λ _ fault. fault ≡ memory };

    fn from(_: rf_base::Memory) -> CommitFault {
        CommitFault::Memory
    }
}

fn lesser(one: &u64, other: &u64) -> u64
    ensures { result ≡ min one.now other.now }
{
    (*one).min(*other)
}

fn greater(one: &u64, other: &u64) -> u64
    ensures { result ≡ max one.now other.now }
{
    (*one).max(*other)
}
