ghost use Rattle.std.specs.Prelude.{◌≡◌, ◌+◌, ◌<◌, ◌^◌, [], None, Ok, length, IfOk};
ghost use Rattle.chdr_stream.specs.Capture.{capture_of};
ghost use Rattle.chdr_stream.specs.Rest.{rest_of};
ghost use Rattle.chdr_stream.specs.Stream.{reading};
ghost use Rattle.packet_uses.specs.Collected.{Takes, fault_of, joined, shown};

use chdr_packets::PacketFault;
use chdr_stream::{Decoder, FinishFault, Placed, StreamFault};
use chdr_words::Bytes;
use rf_base::{Items, Memory};
use std::alloc::Global;

/// Where the packets of a stream end, and why.
#[derive(Clone, Copy, Debug, PartialEq, Eq)]
pub enum End {
    /// At its last byte.
    Whole,
    /// The bytes from this one on are no whole packet.
    Truncated { at: u64 },
    /// There is no packet at this byte, whatever follows.
    Bad { at: u64, fault: PacketFault },
}

/// The packets of a stream, and where they end.
#[derive(Debug, Drop)]
pub struct Collected {
    pub packets: Items<Placed>,
    pub end: End,
}

/// Takes the packets that a decoder has; the end, if it stands at a fault.
fn take_packets(decoder: &mut Decoder, packets: &mut Items<Placed>) -> Result<Option<End>, Memory>
    ensures takes { IfOk result (λ end.
        Takes decoder.old decoder.new packets.old packets.new end) }
    ensures place { decoder.new.at + length decoder.new.kept ≡
        decoder.old.at + length decoder.old.kept }
{
    loop {
        match decoder.next() {
            Ok(Some(placed)) => packets.push(placed)?,
            Ok(None) => return Ok(None),
            Err(StreamFault::Memory) => return Err(Memory),
            Err(StreamFault::Bad { at, fault }) => return Ok(Some(End::Bad { at, fault })),
        }
    }
}

/// The end of a stream whose packets were taken.
fn end_of(decoder: &Decoder) -> End
    requires { reading decoder.now ≡ Ok None }
    ensures { rest_of decoder.now [] ≡ record { items = []; fault = fault_of result } }
{
    match decoder.finish() {
        Ok(()) => End::Whole,
        Err(FinishFault::Truncated { at }) => End::Truncated { at },
    }
}

/// The packets of the stream that comes in these pieces: those that its bytes show.
///
/// Rule: docs/wire-format.md, "Captures".
pub fn collect(alloc: Global, pieces: &[Bytes]) -> Result<Collected, Memory>
    requires { length (joined pieces.now) < 2 ^ 64 }
    ensures { IfOk result (λ found. capture_of (joined pieces.now) ≡ shown found) }
{
    let mut decoder = Decoder::new(alloc);
    let mut packets = Items::new(alloc);
    for piece in pieces {
        decoder.feed(piece.as_slice())?;
        match take_packets(&mut decoder, &mut packets)? {
            None => {}
            Some(end) => return Ok(Collected { packets, end }),
        }
    }
    let end = end_of(&decoder);
    Ok(Collected { packets, end })
}
