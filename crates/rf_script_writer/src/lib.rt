//! The canonical text of a script.
#![tactic(auto)]

mod command;
mod encode;
mod entry;
mod list;
mod object;

pub use encode::encode_script;
