//! The machine of a network, performed: a net keeps the present of a state, and goes on as the state does.
#![tactic(auto)]

mod begin;
mod build;
mod candidates;
mod choosing;
mod conditions;
mod events;
mod fabric;
mod feeds;
mod finished;
mod happening;
mod hopping;
mod hops;
pub mod law;
mod onward;
mod orders;
mod places;
mod reserving;
mod walks;

pub use candidates::Sizes;
pub use fabric::Fabric;
