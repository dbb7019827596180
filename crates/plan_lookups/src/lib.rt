//! Look-ups in a run's plan: the streams and blocks at an EPID and at the ends of each other, and which packets are to be lost.
//!
//! Each is that of docs/machine.md, with None where nothing stands.
#![tactic(auto)]

mod block;
mod kind;
pub mod named;
mod stream;

pub use block::{block_in, block_on, block_out, consumer_of, ends_at_rx, producer_of};
pub use kind::{is_rx, is_tx};
pub use stream::{stream_at, stream_from, stream_into, stream_out_of, stream_to};
