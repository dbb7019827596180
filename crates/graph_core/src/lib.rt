//! A radio graph: its blocks, its edges, the values that a user set and those that a commit left.
#![tactic(auto)]

mod connect;
mod fault;
mod graph;
mod law;
mod place;
mod ports;
mod reach;
mod values;

pub use fault::{ConnectFault, SetFault};
pub use graph::{BlockKinds, Edges, Graph};
pub use law::{
    chains_of_edges_are_short, items_come_from_the_user, settled_values_agree,
    settled_values_are_unique,
};
pub use place::{Edge, PortAt, Prop, PropAt, Rule, Side};
pub use ports::{port_count, ports_at};
pub use values::Values;
