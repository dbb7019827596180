//! The present of a network: what a running net keeps of the machine's state, and how it goes on.
//!
//! docs/machine.md tells it in prose.
#![tactic(auto)]

mod law;

pub use law::{the_present_follows, the_present_tells};
