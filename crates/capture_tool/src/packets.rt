//! The packets that a decoder has, listed or counted.
ghost use Rattle.std.specs.Prelude.{◌≡◌, ◌+◌, ◌≤◌, ◌<◌, ◌^◌, length, ◌++◌, Ok, None, Some, IfOk, OnOk, IsSome};
ghost use Rattle.chdr_stream.specs.Capture.{reason_of};
ghost use Rattle.capture_tool.specs.Follows.{CountsOn, IsAt, IsWithin, Lists, last_fault, long_fault, one_more};
ghost use Rattle.capture_tool.specs.Listing.{line_of, ops_of};
ghost use Rattle.capture_tool.specs.Seen.{why_of};

use crate::line::put_line;
use crate::seen::{Counts, Fault, Why, why_of};
use chdr_packets::PacketFault;
use chdr_stream::{Decoder, Placed, StreamFault};
use rf_base::Memory;
use rf_outside::{Progress, Text};

/// The bytes of a capture that are looked at.
pub const LIMIT: usize = 1 << 30;

/// Lists the packets that are there; the fault if there is one.
pub fn list_packets(
    decoder: &mut Decoder,
    packets: &mut u64,
    page: &mut Text,
) -> Result<Option<Fault>, Memory>
    requires { IsWithin decoder.old packets.old 0 }
    ensures lists { IfOk result (λ _.
        Lists decoder.old decoder.new packets.old packets.new page.old page.new) }
    ensures at { IfOk result (λ fault. IsAt fault decoder.new) }
    ensures within { IsWithin decoder.new packets.new 0 }
    ensures place { decoder.new.at + length decoder.new.kept ≡
        decoder.old.at + length decoder.old.kept }
{
    loop {
        match decoder.next() {
            Ok(Some(placed)) => list_packet(placed, packets, page)?,
            Ok(None) => return Ok(None),
            Err(StreamFault::Memory) => return Err(Memory),
            Err(StreamFault::Bad { at, fault }) => return Ok(Some(fault_at(at, fault))),
        }
    }
}

/// Puts a packet's line, and counts the packet.
fn list_packet(placed: Placed, packets: &mut u64, page: &mut Text) -> Result<(), Memory>
    requires ops { ops_of placed.packet.body < 2 ^ 64 }
    requires packets { packets.old < 2 ^ 32 }
    ensures line { OnOk result (page.new ≡ page.old ++ line_of placed) }
    ensures count { packets.new ≡ packets.old + 1 }
{
    *packets += 1;
    put_line(page, &placed)
}

/// Counts the packets that are there; the fault if there is one.
pub fn count_packets(decoder: &mut Decoder, counts: &mut Counts) -> Option<Fault>
    requires within { IsWithin decoder.old counts.old.packets 0 }
    requires less { counts.old.canonical ≤ counts.old.packets }
    ensures counts { CountsOn decoder.old decoder.new counts.old counts.new }
    ensures at { IsAt result decoder.new }
    ensures within { IsWithin decoder.new counts.new.packets 0 }
    ensures less { counts.new.canonical ≤ counts.new.packets }
    ensures place { decoder.new.at + length decoder.new.kept ≡
        decoder.old.at + length decoder.old.kept }
{
    loop {
        match decoder.pass() {
            Ok(Some(passed)) => *counts = one_more(*counts, passed.canonical),
            Ok(None) => return None,
            Err(StreamFault::Bad { at, fault }) => return Some(fault_at(at, fault)),
            // passing takes no memory
            Err(StreamFault::Memory) => unreachable!(),
        }
    }
}

fn one_more(counts: Counts, canonical: bool) -> Counts
    requires packets { counts.packets < 2 ^ 32 }
    requires less { counts.canonical ≤ counts.packets }
    ensures { result ≡ one_more counts canonical }
{
    Counts {
        packets: counts.packets + 1,
        canonical: counts.canonical + if canonical { 1 } else { 0 },
    }
}

fn fault_at(at: u64, fault: PacketFault) -> Fault
    ensures { result ≡ record { at = at; why = why_of (reason_of fault) } }
{
    Fault {
        at,
        why: why_of(fault),
    }
}

/// A fault ends a capture.
pub fn progress_of(fault: Option<Fault>) -> Progress
    ensures goes_on { result ≡ Progress.GoesOn → fault ≡ None }
    ensures stops { result ≡ Progress.Stops → IsSome fault }
{
    match fault {
        None => Progress::GoesOn,
        Some(_) => Progress::Stops,
    }
}

/// The fault of a capture that ends at the bytes fed.
pub fn last_fault(fault: Option<Fault>, decoder: &Decoder) -> Option<Fault>
    ensures { result ≡ last_fault fault decoder.now }
{
    if fault.is_some() || decoder.left() == 0 {
        return fault;
    }
    Some(Fault {
        at: decoder.place(),
        why: Why::Truncated,
    })
}

/// The fault of a capture that goes on past the limit.
pub fn long_fault(fault: Option<Fault>) -> Fault
    ensures { result ≡ long_fault fault }
{
    match fault {
        None => Fault {
            at: LIMIT as u64,
            why: Why::TooLong,
        },
        Some(fault) => fault,
    }
}
