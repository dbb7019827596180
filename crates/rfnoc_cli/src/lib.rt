//! The program `rfnoc` as one call over a source, a sink and banks.
#![tactic(auto)]

mod generate;
mod top;
mod words;

pub use block_library::Line;
pub use script_books::{Book, BookList, Books};
pub use top::rfnoc;

#[cfg(test)]
mod capture_tests;
#[cfg(test)]
mod pcap_tests;
#[cfg(test)]
mod row_tests;
#[cfg(test)]
mod talk_tests;
#[cfg(test)]
mod tests;
