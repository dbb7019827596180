//! What each stream of a network has under way, and that no channel with an entry stands still.
//!
//! Rule: docs/net.md, "Ways".
#![tactic(auto)]

pub mod law;
