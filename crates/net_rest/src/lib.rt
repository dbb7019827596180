//! What a run leaves: a network at rest, with its nodes as they were.
//!
//! Rule: docs/machine-laws.md, "Rest".
#![tactic(auto)]

mod law;

pub use law::{networks_at_rest_have_no_messages, no_messages_come, runs_leave_networks_at_rest};
