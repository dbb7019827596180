ghost use Rattle.std.specs.Prelude.{◌≡◌, ◌⊎◌, ◌+◌, ◌≤◌, length};
ghost use Rattle.block_library.specs.Lines.{payload_of, number_at, first_in, last_in, line_of, empty_line, line_with};

use crate::make::sample_count;
use chdr_packets::{Body, Packet};
use chdr_words::{half_at, word_at};

/// What an Rx or sink block took in a run.
///
/// Both counts stand still at 2^64 - 1. Rule: docs/blocks.md, "Lines".
#[derive(Clone, Copy, Debug, PartialEq, Eq)]
pub struct Line {
    pub block: u16,
    pub packets: u64,
    /// Samples of the block's item size.
    pub samples: u64,
    /// The first sample taken, and the last one.
    pub first: Option<u64>,
    pub last: Option<u64>,
}

impl Line {
    /// The line of a block that took nothing.
    pub fn new(block: u16) -> Line
        ensures { result ≡ empty_line block }
    {
        Line {
            block,
            packets: 0,
            samples: 0,
            first: None,
            last: None,
        }
    }

    /// The line of a block that took these packets, with samples of `item` bytes.
    pub fn of(block: u16, item: u32, packets: &[Packet]) -> Line
        requires { (item ≡ 4) ⊎ (item ≡ 8) }
        ensures { result ≡ line_of block item packets.now }
    {
        let mut line = Line::new(block);
        for packet in packets {
            line.take(item, packet);
        }
        line
    }

    /// Counts one packet more, with samples of `item` bytes.
    pub fn take(&mut self, item: u32, packet: &Packet)
        requires { (item ≡ 4) ⊎ (item ≡ 8) }
        ensures { self.new ≡ line_with item self.old packet.now }
    {
        let payload = payload_of(packet);
        self.packets = self.packets.saturating_add(1);
        self.samples = self
            .samples
            .saturating_add(sample_count(item, packet) as u64);
        self.first = self.first.or(first_in(payload, item));
        self.last = last_in(payload, item).or(self.last);
    }
}

/// The samples of a packet, as bytes.
fn payload_of(packet: &Packet) -> &[u8]
    ensures { result.now ≡ payload_of packet.now }
{
    match &packet.body {
        Body::Samples { time: _, payload } => payload.as_slice(),
        Body::Status(_) | Body::Command(_) | Body::Control(_) | Body::Management(_) => &[],
    }
}

fn first_in(payload: &[u8], item: u32) -> Option<u64>
    requires { (item ≡ 4) ⊎ (item ≡ 8) }
    ensures { result ≡ first_in item payload.now }
{
    if item as usize <= payload.len() {
        Some(number_at(payload, item, 0))
    } else {
        None
    }
}

fn last_in(payload: &[u8], item: u32) -> Option<u64>
    requires { (item ≡ 4) ⊎ (item ≡ 8) }
    ensures { result ≡ last_in item payload.now }
{
    if item as usize <= payload.len() {
        Some(number_at(payload, item, payload.len() - item as usize))
    } else {
        None
    }
}

fn number_at(payload: &[u8], item: u32, at: usize) -> u64
    requires item { (item ≡ 4) ⊎ (item ≡ 8) }
    requires there { at + item ≤ length payload.now }
    ensures { result ≡ number_at item payload.now at }
{
    if item == 8 {
        word_at(payload, at)
    } else {
        half_at(payload, at) as u64
    }
}
