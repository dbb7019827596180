//! The packets that a network is to lose, named by their places.
//!
//! Rule: docs/machine.md, "Events".
#![tactic(auto)]

mod fault;

pub use fault::{Fault, Faults};
