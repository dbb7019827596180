//! Captures listed and checked.
#![tactic(auto)]

mod check;
mod line;
mod names;
mod packets;
mod pcap;
mod seen;
mod show;
mod text;

pub use check::check_capture;
pub use pcap::{PcapSeen, Totals, show_pcap};
pub use seen::{Counts, Fault, Seen, Why};
pub use show::show_capture;
