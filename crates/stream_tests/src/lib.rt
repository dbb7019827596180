//! Tests of the public calls of the crates of streams and blocks, in a file for each crate.
#![tactic(auto)]

#[cfg(test)]
mod block_library_tests;
#[cfg(test)]
mod block_registers_tests;
#[cfg(test)]
mod both_ends;
#[cfg(test)]
mod stream_endpoint_tests;
#[cfg(test)]
mod stream_laws_tests;
