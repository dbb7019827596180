use rf_base::{Copyable, Items, Memory};

/// How a stream stands at the end of a run.
///
/// Rule: docs/machine.md, "Ends and tallies".
#[derive(Clone, Copy, Debug, PartialEq, Eq)]
pub enum StreamEnd {
    Drained,
    /// The receiver found a gap: it expected one number and got another, both modulo 2^16.
    Broken { expected: u16, got: u16 },
    /// Packets sent, and packets that the sender knows to be taken, counted from the start.
    Undrained { sent: u64, acked: u64 },
}

/// The ends of a run's streams, by their numbers.
pub type Ends = Items<StreamEnd>;

/// What a stream did in a run.
#[derive(Clone, Copy, Debug, PartialEq, Eq)]
pub struct Tally {
    /// Packets that entered their first queue.
    pub sent: u64,
    /// Packets that the consumer took.
    pub delivered: u64,
    /// Packets that the sender knows to be taken, counted from the start.
    pub acked: u64,
    /// One more than the RESYNC commands that arrived.
    pub epochs: u64,
    /// The most bytes that were outstanding at any moment.
    pub peak_bytes: u64,
    /// The most packets that were outstanding at any moment.
    pub peak_packets: u64,
}

/// The tallies of a run's streams, by their numbers.
pub type Tallies = Items<Tally>;

impl Copyable for StreamEnd {
    fn copy(&self) -> Result<StreamEnd, Memory> {
        Ok(*self)
    }
}

impl Copyable for Tally {
    fn copy(&self) -> Result<Tally, Memory> {
        Ok(*self)
    }
}
