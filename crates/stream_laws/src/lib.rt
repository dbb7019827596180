//! The laws of one stream: what holds in each state that a legal run of its machine leaves.
//!
//! The machine stands in specs/Machine.antt and specs/Acts.antt: its acts work by the rules of
//! both ends that the calls of `stream_endpoint` keep. A law is what a function here ensures; `P`
//! is what a packet is beside its wire size.
#![tactic(auto)]

mod law;

pub use law::{
    a_loss_can_halt, a_loss_is_mended, commands_end, credit_is_never_passed, drained_gives_all,
    drained_stays, epochs_are_few, given_begins_sent, nothing_is_given_after_a_gap,
    only_a_loss_breaks, rest_is_an_end, rest_is_quiet, runs_join, spellings_tell,
    taken_begins_given, tests_tell_their_conditions, the_invariant_holds, what_is_kept_finds_room,
    what_was_made_is_sent_in_order,
};
