//! How runs end: when no event is enabled any more, and what was carried by then.
//!
//! Rule: docs/machine-laws.md, "How runs end".
#![tactic(auto)]

mod law;

pub use law::{
    a_run_without_losses_ends_plain, each_end_has_its_cause, producers_make_few_packets,
    still_networks_are_empty,
};
