//! Tests of the public calls of the script crates, in a file for each crate.
#![tactic(auto)]

#[cfg(test)]
mod fault_tests;
#[cfg(test)]
mod field_tests;
#[cfg(test)]
mod rf_script_tests;
#[cfg(test)]
mod script_books_tests;
#[cfg(test)]
mod script_lines_tests;
