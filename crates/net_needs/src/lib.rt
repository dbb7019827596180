//! What a running net asks of its parts at each event follows from a lawful state.
//!
//! Rule: docs/machine.md, "Events".
#![tactic(auto)]

mod law;

pub use law::{
    sizes_stay_and_counts_rise_slowly, what_a_tx_made_stays_until_an_enter,
    what_enters_has_a_place, what_hops_or_is_lost_is_there, what_is_enabled_can_be_done,
    what_is_fed_is_taken,
};
