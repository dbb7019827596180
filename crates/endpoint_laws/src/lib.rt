//! The laws of both ends of a stream: what is kept modulo does as the whole end does, what is spelled
//! means what was meant, and each test tells its condition.
//!
//! Rule: docs/streams.md, "Counts".
#![tactic(auto)]

mod law;

pub use law::{
    a_kept_receiver_does_as_the_whole_one, a_kept_sender_does_as_the_whole_one,
    any_calls_do_as_on_whole_counts, tests_tell_their_conditions,
    what_is_spelled_means_what_was_meant,
};
