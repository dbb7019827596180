//! The commit of a radio graph: which values follow from the user's, or why they don't.
#![tactic(auto)]

mod derive;
mod fault;
mod joins;
mod learn;
mod missing;
mod resolve;
mod rule;
mod spread;
mod start;
mod steps;

pub use fault::CommitFault;
pub use graph_core::Rule;
pub use resolve::commit;
pub use steps::Steps;
