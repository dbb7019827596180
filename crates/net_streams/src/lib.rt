//! Each stream of a network as a run of the machine of one stream: what the network shows of it, and the acts of its events.
#![tactic(auto)]

mod law;

pub use law::{
    what_comes_is_an_act, what_is_lost_is_an_act, what_is_made_is_an_act, what_is_sent_is_an_act,
    what_is_taken_is_an_act, what_is_unseen_changes_nothing,
};
