//! A net: the machine of a network, performed. It keeps the present of a lawful state, and goes on as the state does.
//!
//! Rule: docs/machine.md.
#![tactic(auto)]

mod asks;
mod epids;
mod net;
mod reaching;
mod renaming;
mod steps;
mod tells;

pub use net::Net;
