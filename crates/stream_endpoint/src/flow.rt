ghost use Rattle.std.specs.Prelude.{◌≡◌, ◌↔◌, IsTrue};
ghost use Rattle.stream_endpoint.specs.Flow.{IsValid, HasRoom, has_room, frequency};
ghost use Rattle.stream_endpoint.specs.Sender.{fallen};

use crate::{Count, OutState};

/// What a receiver can hold, and how often it reports.
#[derive(Clone, Copy, Debug, PartialEq, Eq)]
pub struct Flow {
    /// The capacity in bytes of wire size.
    pub cap_bytes: u64,
    /// The capacity in packets.
    pub cap_packets: u32,
    /// A status is due once this many bytes were taken since the last one,
    pub freq_bytes: u64,
    /// or this many packets.
    pub freq_packets: u32,
    /// The greatest wire size of a packet.
    pub max: u32,
}

/// What a sender does once a packet is lost.
#[derive(Clone, Copy, Debug, PartialEq, Eq)]
pub enum Policy {
    /// It resynchronises and goes on.
    Auto,
    /// It halts.
    Off,
}

impl Flow {
    /// Whether the numbers of this flow are within their bounds.
    ///
    /// Rule: docs/streams.md, "Flow".
    pub fn valid(&self) -> bool
        ensures { IsTrue result ↔ IsValid self.now }
    {
        let bytes = self.cap_bytes < 1 << 40
            && self.max as u64 <= self.cap_bytes
            && self.freq_bytes <= self.cap_bytes - self.max as u64;
        let packets = self.freq_packets <= self.cap_packets && self.cap_packets <= 1024;
        let least = self.freq_bytes >= 1 && self.freq_packets >= 1;
        bytes && packets && least && self.max >= 16 && self.max <= 8192
    }

    /// Whether one more packet of `wire` bytes is within the capacity beside what is held.
    ///
    /// Rule: docs/streams.md, "Credit".
    pub fn has_room(&self, held: Count, wire: u32) -> bool
        ensures exact { IsTrue result ↔ HasRoom self.now held wire }
        ensures test { result ≡ has_room self.now held wire }
    {
        let wire = wire as u64;
        wire <= self.cap_bytes
            && held.bytes <= self.cap_bytes - wire
            && held.packets < self.cap_packets as u64
    }

    /// The frequency that an INIT tells.
    pub fn frequency(&self) -> Count
        ensures { result ≡ frequency self.now }
    {
        Count {
            packets: self.freq_packets as u64,
            bytes: self.freq_bytes,
        }
    }
}

impl Policy {
    /// The state of a running sender once it hears of a loss.
    pub fn fallen(self) -> OutState
        ensures { result ≡ fallen self }
    {
        match self {
            Policy::Auto => OutState::Resyncing,
            Policy::Off => OutState::Halted,
        }
    }
}
