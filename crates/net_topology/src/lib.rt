//! The shape of a network: plans of nodes and links, which plans are trees, and the ways in a tree.
#![tactic(auto)]

mod check;
pub mod law;
mod plan;
mod topology;
mod ups;

pub use check::PlanFault;
pub use plan::{LinkList, LinkNumbers, LinkPlan, NodeList, NodePlan, Plan};
pub use topology::Topology;
