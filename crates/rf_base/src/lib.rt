//! What every crate stands on: running out of memory, the one generic list, and how a value is
//! copied.
#![tactic(auto)]

mod copyable;
mod items;
mod lists;
mod memory;

pub use copyable::Copyable;
pub use items::Items;
pub use lists::{Bytes, Bytes32, CountList, WordList};
pub use memory::Memory;
