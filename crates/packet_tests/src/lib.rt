//! Tests of the public calls of the packet crates, in a file for each crate.
#![tactic(auto)]

#[cfg(test)]
mod chdr_packets_tests;
#[cfg(test)]
mod chdr_stream_tests;
#[cfg(test)]
mod chdr_words_tests;
#[cfg(test)]
mod rf_base_tests;
