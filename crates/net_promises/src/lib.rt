//! What a lawful network gives to those that run it: the report's promise of each stream, room for what
//! comes, and what a present rests on.
//!
//! Rule: docs/net.md, "Lawful states".
#![tactic(auto)]

mod law;

pub use law::{
    runs_keep_their_promises, states_fit_their_present, states_keep_their_tallies,
    streams_stay_within_capacity, what_comes_can_be_taken_in,
};
