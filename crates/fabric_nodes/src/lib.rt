//! What a net keeps of its network: the look-ups of its tree, and each node with what lies at it.
#![tactic(auto)]

pub mod law;
mod messages;
mod node;
mod packets;
mod ports;
mod wires;

pub use messages::message;
pub use node::{NodePart, Site};
pub use packets::Packets;
pub use ports::{Ports, first_hop, walking};
pub use wires::Wires;
