//! A bounded queue of packets between two threads, with one end each. What is taken is, in order,
//! what was put.
#![tactic(auto)]

mod both;
mod lane;
mod law;
mod plan;
mod rule;
mod rx;
mod tx;

pub use both::{LaneEnd, close, meet};
pub use lane::Lane;
pub use law::between_steps;
pub use plan::LanePlan;
pub use rx::LaneRx;
pub use tx::LaneTx;

#[cfg(test)]
mod tests;
