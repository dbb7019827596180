ghost use Rattle.std.specs.Prelude.{◌≡◌};
ghost use Rattle.stream_endpoint.specs.Counts.{none, one_of, plus, spelled, spelled_minus, is_none};

/// A number of packets and the sum of their wire sizes in bytes.
#[derive(Clone, Copy, Debug, PartialEq, Eq)]
pub struct Count {
    pub packets: u64,
    pub bytes: u64,
}

/// Packets are spelled in 40 bits.
const PACKETS: u64 = 1 << 40;

impl Count {
    pub fn none() -> Count
        ensures { result ≡ none }
    {
        Count {
            packets: 0,
            bytes: 0,
        }
    }

    pub fn is_none(self) -> bool
        ensures { result ≡ is_none self }
    {
        self.packets == 0 && self.bytes == 0
    }

    /// The count modulo 2^40 packets and 2^64 bytes.
    pub fn spelled(self) -> Count
        ensures { result ≡ spelled self }
    {
        Count {
            packets: self.packets % PACKETS,
            bytes: self.bytes,
        }
    }

    /// The count with one more packet of this wire size, modulo 2^40 packets and 2^64 bytes.
    pub fn and_one(self, wire: u32) -> Count
        ensures { result ≡ spelled (plus self (one_of wire)) }
    {
        Count {
            packets: (self.packets % PACKETS + 1) % PACKETS,
            bytes: self.bytes.wrapping_add(wire as u64),
        }
    }

    /// The count minus another, modulo 2^40 packets and 2^64 bytes.
    pub fn minus(self, other: Count) -> Count
        ensures { result ≡ spelled_minus self other }
    {
        Count {
            packets: (self.packets % PACKETS + (PACKETS - other.packets % PACKETS)) % PACKETS,
            bytes: self.bytes.wrapping_sub(other.bytes),
        }
    }
}
