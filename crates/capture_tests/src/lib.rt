//! Tests of the public calls of the capture crates, in a file for each crate.
#![tactic(auto)]

#[cfg(test)]
mod capture_tool_tests;
#[cfg(test)]
mod pcap_input_tests;
#[cfg(test)]
mod rf_outside_tests;
