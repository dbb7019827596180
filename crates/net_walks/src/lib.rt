//! Management packets that walk a network and come back: what they leave in tables, and what they bring.
//!
//! Rule: docs/control-and-discovery.md, "Discovery and routes".
#![tactic(auto)]

mod law;

pub use law::{
    entries_are_entered, links_lead_back, plans_tell_nodes, probes_come_back, walkers_come_back,
    ways_are_walks,
};
