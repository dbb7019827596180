//! The machine of a whole network, as definitions: its state, and its events with what each asks and does.
//!
//! docs/machine.md tells it in prose.
#![tactic(auto)]

mod event;
mod law;
mod plan;
mod seed;
mod tally;

pub use event::{Event, Journal};
pub use law::{
    a_place_that_is_not_there_is_blank, choices_are_enabled_and_miss_none, queues_are_numbered,
    runs_join, shapes_stay,
};
pub use plan::{BlockPlan, BlockPlans, RunPlan, StreamPlan, StreamPlans};
pub use seed::Seed;
pub use tally::{Ends, StreamEnd, Tallies, Tally};
