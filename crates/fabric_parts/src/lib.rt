//! What a run in a net is made of: queues, streams and blocks; contracts see each as its part of
//! the present.
#![tactic(auto)]

mod block;
mod queue;
mod source;
mod stream;

pub use block::BlockPart;
pub use queue::{Entry, Queue};
pub use source::{MOST_OFFERED, Source};
pub use stream::StreamPart;
