//! A script performed on one thread: the book of each command, and the report that tells them.
//!
//! Rule: docs/scripts-and-reports.md.
#![tactic(auto)]

mod command;
mod controls;
mod discoveries;
mod fault_text;
mod law;
mod routes;
mod runs;
mod script;
mod talks;
mod top;

pub use command::run_command_one;
pub use law::scripts_drain;
pub use script::perform_all;
pub use script_worlds::World;
pub use top::{perform_script, run_script_one};
