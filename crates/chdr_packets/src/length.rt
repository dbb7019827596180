ghost use Rattle.std.specs.Prelude.{◌≡◌, ◌≤◌};
ghost use Rattle.chdr_packets.specs.Length.{body_length, length_of, wire_of};
ghost use Rattle.chdr_words.specs.Wire.{time_bytes};

use crate::packet::{Body, Packet};
use chdr_words::{op_count, wire_size};

/// The bytes of a timestamp word, where there is one.
pub(crate) fn time_bytes(time: Option<u64>) -> usize
    ensures { result ≡ time_bytes time }
{
    match time {
        None => 0,
        Some(_) => 8,
    }
}

fn body_length(body: &Body) -> usize
    requires { body_length body.now ≤ 65535 }
    ensures { result ≡ body_length body.now }
{
    match body {
        Body::Samples { time, payload } => time_bytes(*time) + payload.len(),
        Body::Status(_) => 32,
        Body::Command(_) => 16,
        Body::Control(control) => {
            (12 + time_bytes(control.time) + 4 * control.words.len() + 7) / 8 * 8
        }
        Body::Management(management) => 8 + 8 * op_count(management.hops.as_slice()),
    }
}

impl Packet {
    /// The Length of the canonical spelling: header, timestamp, metadata and payload in bytes.
    pub fn length(&self) -> u16
        requires { length_of self.now ≤ 65535 }
        ensures { result ≡ length_of self.now }
    {
        (8 + 8 * self.mdata.len() + body_length(&self.body)) as u16
    }

    /// The bytes that the packet takes on a link: its Length rounded up to words.
    pub fn wire_size(&self) -> u32
        requires { length_of self.now ≤ 65535 }
        ensures { result ≡ wire_of self.now }
    {
        wire_size(self.length())
    }
}
