//! How a caller uses the crates of packets, by their contracts, definitions and laws alone.
#![tactic(auto)]

mod answering;
mod collecting;
mod respelling;

pub use answering::answer;
pub use collecting::{Collected, End, collect};
pub use respelling::respell;

#[cfg(test)]
mod tests;
