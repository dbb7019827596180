//! The walk of a host: it finds the nodes of its network by probes, one for each port.
//!
//! Rule: docs/control-and-discovery.md, "Discovery and routes".
#![tactic(auto)]

mod answers;
mod discovery;
mod law;
mod packets;
mod probes;
mod walk;

pub use discovery::discover;
pub use law::whole_trees_are_found;
