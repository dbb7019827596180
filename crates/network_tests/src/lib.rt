//! Tests of the public calls of the crates of networks and of a net's parts, in a file for each crate.
#![tactic(auto)]

#[cfg(test)]
mod fabric_flags_tests;
#[cfg(test)]
mod fabric_nodes_tests;
#[cfg(test)]
mod fabric_parts_tests;
#[cfg(test)]
mod net_machine_tests;
#[cfg(test)]
mod net_nodes_tests;
#[cfg(test)]
mod net_topology_tests;
#[cfg(test)]
mod net_ways_tests;
