//! What holds of whole runs: they end, each end has its cause, and without losses the plan tells all of it.
//!
//! Rule: docs/machine-laws.md, "Whole runs".
#![tactic(auto)]

mod law;

pub use law::{
    legal_journals_end, nothing_is_lost_that_is_not_named, only_a_lose_loses_packets,
    resynchronising_runs_drain, whole_runs_end_for_a_cause, whole_runs_without_losses_end_plain,
};
