//! Whole CHDR packets at the 64-bit width.
#![tactic(auto)]

mod decoding;
mod encoding;
mod fault;
mod fitting;
mod law;
mod length;
mod packet;

pub use decoding::{decode, is_canonical, pass, read_front};
pub use encoding::encode;
pub use fault::PacketFault;
pub use fitting::fits;
pub use law::{
    canonical_spellings_are_unique, fitting_packets_are_spelled, one_packet_is_in_front,
    reading_tells_the_first_failing_test, spelled_packets_fit, spellings_are_read_back,
    what_follows_changes_nothing, what_is_read_is_spelled,
};
pub use packet::{Body, Front, Packet, PacketList};
