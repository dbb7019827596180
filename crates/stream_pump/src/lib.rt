//! A run on one thread: its events are chosen one after another, and its book tells what they left.
//!
//! Rule: docs/machine.md, "One thread", and "Ends and tallies".
#![tactic(auto)]

mod drains;
mod events;
mod law;
mod lines;
mod run;
mod sides;
mod supply;
mod tells;

pub use block_library::Line;
pub use law::{
    books_tell_of_drained_streams, books_without_losses_are_plain, chosen_books_are_books,
    whole_runs_have_books_and_rest,
};
pub use net_machine::{StreamEnd, Tally};
pub use run::{book, run_one};
pub use run_books::{Lines, RunBook, TakenLists};
