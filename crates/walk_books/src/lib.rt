//! What a walk of a network leaves: the nodes that it found, how many ports lead nowhere, and which probes were lost.
//!
//! Rule: docs/control-and-discovery.md, "Discovery and routes".
#![tactic(auto)]

mod found;

pub use found::{Found, FoundNode, FoundNodes, LostPort, LostPorts};
