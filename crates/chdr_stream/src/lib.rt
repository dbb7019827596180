//! Packets from pieces of a byte stream, the same however it was cut.
//!
//! A stream that has a fault gives the packets before its first one, and then that fault.
//!
//! What holds of captures and of every list of calls stands in law.rt.
#![tactic(auto)]

mod decoder;
mod law;
mod placed;
mod window;

pub use decoder::Decoder;
pub use law::{
    a_decoder_shows_what_follows, a_stream_stops_at_the_first_fault, any_cut_gives_the_same,
    calls_do_what_clauses_say, captures_show_no_fault, packets_tell_their_places,
    the_fault_is_the_first,
};
pub use placed::{FinishFault, Passed, Placed, StreamFault};
pub use window::Window;
