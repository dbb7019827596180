use block_library::Line;
use chdr_packets::PacketList;
use net_machine::{Ends, Journal, Tallies};
use rf_base::Items;

/// For each Rx block, in order, the packets that it took.
pub type TakenLists = Items<PacketList>;

/// For each Rx and sink block, in order, its line.
pub type Lines = Items<Line>;

/// A run, from its first event to the moment when nothing is left to happen.
#[derive(Debug, Drop, PartialEq, Eq)]
pub struct RunBook {
    pub journal: Journal,
    pub ends: Ends,
    pub tallies: Tallies,
    pub taken: TakenLists,
    pub lines: Lines,
}
