//! What a run leaves: its journal, and what it tells of each stream and block.
#![tactic(auto)]

mod book;

pub use book::{Lines, RunBook, TakenLists};
