//! A host's talk over a net: it asks a request, lets all that follows happen, and takes the answer.
//!
//! Rule: docs/control-and-discovery.md, "Requests and answers".
#![tactic(auto)]

mod law;
mod requests;

pub use law::{nets_are_settled_as_their_states, nets_at_rest_are_settled};
pub use requests::talk;
