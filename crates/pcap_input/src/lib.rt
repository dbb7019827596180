//! Frames of a classic pcap file in pieces, and the UDP datagrams of one port among them.
//!
//! Rule: docs/pcap-files.md.
#![tactic(auto)]

mod bytes;
mod frame;
mod header;
mod item;
mod law;
mod reader;
mod record_head;

pub use header::Order;
pub use item::{PcapFault, PcapItem, PcapReason};
pub use law::{a_file_is_its_records, a_reader_shows_what_follows, any_cut_gives_the_same};
pub use reader::PcapReader;
