//! The blocks and streams that a script lays out, what is refused of them, and the plan of a run
//! that they make.
//!
//! docs/graph.md and docs/machine.md tell it in prose.
#![tactic(auto)]

mod begin;
mod bounds;
mod connect;
mod fault;
mod kinds;
mod law;
mod layout;
mod place;
mod plan;
mod reaches;
mod set;

pub use begin::run_refusal;
pub use connect::Terms;
pub use fault::{BlockRefusal, ConnectRefusal, RunRefusal};
pub use law::{refused_plans_do_not_begin, unrefused_plans_begin};
pub use layout::{Layout, PlacedBlock, PlacedBlocks};
pub use reaches::Reaches;
