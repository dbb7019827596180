//! Tests of the public calls of the crates of graphs, in a file for each crate.
#![tactic(auto)]

#[cfg(test)]
mod graph_core_tests;
#[cfg(test)]
mod property_resolver_tests;
