//! What holds of a network in each of its states, from the building of it on.
//!
//! Rule: docs/net.md, "Lawful states".
#![tactic(auto)]

mod law;

pub use law::{
    moves_leave_networks_lawful, networks_begin_lawful, nodes_can_perform, peaks_follow,
    streams_join_blocks, streams_stand_still_once_asked,
};
