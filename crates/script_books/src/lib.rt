//! What a script's performance leaves: a book of each command, and what the books tell.
//!
//! Rule: docs/report.md.
#![tactic(auto)]

mod book;
mod commands;
mod counts;
mod made;
mod refusal;

pub use book::{
    ActAnswer, ActAnswers, Book, BookList, Books, DuplexBook, DuplexItem, DuplexItems, TwinBook,
};
pub use commands::{acts_of, is_peaked, is_traced, kind_of};
pub use counts::{refused, undrained};
pub use made::{end_at, kind_at};
pub use refusal::Refusal;
pub use run_books::{Lines, RunBook, TakenLists};
pub use walk_books::{Found, FoundNode, FoundNodes, LostPort, LostPorts};
