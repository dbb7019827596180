//! The world of a script: what its commands leave for those that follow, and the commands that let no event happen.
//!
//! Rule: docs/scripts-and-reports.md.
#![tactic(auto)]

mod commands;
mod law;
mod quiet;
mod runs;
mod told;
mod world;

pub use commands::unload;
pub use law::next_setups_follow;
pub use runs::RunFault;
pub use world::World;
