//! Lists of found nodes: by their numbers and EPIDs, and as nodes of a tree.
//!
//! Rule: docs/control-and-discovery.md, "Discovery and routes".
#![tactic(auto)]

mod law;

pub use law::lists_of_nodes_grow;
