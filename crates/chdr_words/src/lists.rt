//! The lists of this crate, under the names of their field.
use crate::{Epid, MgmtOp};
use rf_base::Items;
pub use rf_base::{Bytes, Bytes32, WordList};

pub type EpidList = Items<Epid>;

/// The operations that one node performs.
pub type Hop = Items<MgmtOp>;

pub type HopList = Items<Hop>;
