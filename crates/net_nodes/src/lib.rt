//! What each node of a network does: it routes packets by its table, and performs management hops.
#![tactic(auto)]

mod adapter;
mod crossbar;
mod end_node;
mod first_place;
mod hop;
pub mod law;
mod room;
mod site;
mod switch;
mod table;

pub use adapter::Adapter;
pub use crossbar::Crossbar;
pub use end_node::EndNode;
pub use room::{Room, asked_answers, is_within_budget, reserve_answers};
pub use site::{Done, Site};
pub use switch::Switch;
pub use table::{Place, Table};
