//! Scripts from JSON: the script that a text stands for, or its first fault.
#![tactic(auto)]

mod acts;
mod block;
mod commands;
mod connect;
mod control;
mod read;
mod run;

pub use read::read_script;
