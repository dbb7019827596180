//! Why runs end: a number of a network's state that each event lowers.
//!
//! Rule: docs/machine-laws.md, "Why runs end".
#![tactic(auto)]

mod law;

pub use law::{each_event_lowers_the_weight, journals_end};
