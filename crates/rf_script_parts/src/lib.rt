//! The parts of a command as JSON: numbers, flags, endpoints and lists.
#![tactic(auto)]

pub mod entries;
pub mod lose;
pub mod net;
pub mod others;
pub mod pair;
pub mod scope;
pub mod value;
pub mod words;
pub mod wrong;
