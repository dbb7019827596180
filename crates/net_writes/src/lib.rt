//! Management packets that write routes: what each leaves in tables, what comes back, and the route that they make.
//!
//! Rule: docs/control-and-discovery.md, "Discovery and routes".
#![tactic(auto)]

mod law;

pub use law::{routes_are_written, writes_come_back};
