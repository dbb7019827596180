//! Control transactions: a host sends a control request to an end node of its network, and gets its acknowledgement.
//!
//! Rule: docs/control-and-discovery.md, "Control transactions".
#![tactic(auto)]

mod fault;
mod host;

pub use fault::CtrlFault;
pub use host::Host;
