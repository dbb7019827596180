//! Written routes: a host writes the entries for two EPIDs at each crossbar and adapter between them, by what it found.
//!
//! Rule: docs/control-and-discovery.md, "Discovery and routes".
#![tactic(auto)]

mod fault;
mod packets;
mod route;
mod steps;
mod writes;

pub use fault::RouteFault;
pub use route::{unknown, write_route};
