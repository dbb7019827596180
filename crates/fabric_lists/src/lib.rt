//! The queues, streams, blocks and nodes of a net, each by its number; what isn't there reads as empty, idle or blank.
#![tactic(auto)]

mod begin;
pub mod blocks;
mod build;
mod hints;
mod queues;
pub mod sites;
mod stream_flags;
pub mod stream_reads;
pub mod streams;

pub use begin::{fed_blocks, opened_streams, unfed_blocks};
pub use build::built_sites;
pub use queues::Queues;
pub use streams::Streams;
