//! A run with threads, round by round: in a round the workers at the edges and the fabric work at once, and each touches
//! its own ends of the lanes alone.
//!
//! Rule: docs/threads.md, "Rounds".
#![tactic(auto)]

mod events;
mod fabric;
mod intake;
mod outlet;
mod pump;

pub use fabric::FabricWorker;
pub use intake::Intake;
pub use outlet::Outlet;
pub use pump::Pump;
pub use stream_lanes::{Drain, Edges, FreeGate, Gate, Source};
