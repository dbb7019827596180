//! What lasts of each stream of a network: its plan, the form of its packets, what its entries tell, and that it is a run
//! of the machine of one stream.
#![tactic(auto)]

mod law;

pub use law::{
    each_stream_begins_as_a_run, each_stream_goes_on_by_acts, each_stream_stays_a_run,
    what_is_finished_stays_finished, what_waits_may_enter,
};
