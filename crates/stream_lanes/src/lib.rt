//! The workers at the edges of a run with threads. A source puts what a Tx makes into a lane, and a drain takes what comes
//! to an Rx out of a lane. In a round all of them work at once, each on a thread of its own: each looks at its lane once,
//! does all that it can then do, and waits for nobody.
#![tactic(auto)]

mod drain;
mod edges;
mod gate;
mod source;

pub use drain::Drain;
pub use edges::Edges;
pub use gate::{FreeGate, Gate};
pub use source::Source;

#[cfg(test)]
mod tests;
