//! The UDP datagram of a frame.
//!
//! Rule: docs/pcap-files.md.
ghost use Rattle.std.specs.Prelude.{◌≡◌, ◌≤◌, ◌<◌, ◌+◌, ◌^◌, length, IsTrue, IfOk};
ghost use Rattle.pcap_input.specs.Frame.{big_at, fits_packet, from_of, has_headers, has_port, has_room, head_of, is_datagram, is_ipv4, is_packet, is_stored, is_udp, is_unfragmented, item_of, length_of, payload_of, to_of, total_of, udp_of, version_of};

use crate::bytes::{byte_at, half_at};
use crate::header::Order;
use crate::item::PcapItem;
use rf_base::{Bytes, Items, Memory};
use std::alloc::Global;

/// Where the packet begins, behind the Ethernet header.
const PACKET: usize = 14;

/// Bytes of a UDP header.
const UDP: usize = 8;

fn big_at(frame: &[u8], at: usize) -> u16
    requires { at < 2 ^ 32 }
    ensures { result ≡ big_at frame.now at }
{
    half_at(Order::Big, frame, at)
}

fn is_ipv4(frame: &[u8]) -> bool
    ensures { result ≡ is_ipv4 frame.now }
{
    byte_at(frame, 12) == 8 && byte_at(frame, 13) == 0
}

fn version_of(frame: &[u8]) -> u8
    ensures { result ≡ version_of frame.now }
{
    byte_at(frame, PACKET) / 16
}

fn head_of(frame: &[u8]) -> usize
    ensures bytes { result ≡ head_of frame.now }
    ensures few { result ≤ 60 }
{
    4 * (byte_at(frame, PACKET) % 16) as usize
}

fn total_of(frame: &[u8]) -> usize
    ensures { result ≡ total_of frame.now }
{
    big_at(frame, PACKET + 2) as usize
}

fn is_unfragmented(frame: &[u8]) -> bool
    ensures { result ≡ is_unfragmented frame.now }
{
    big_at(frame, PACKET + 6) % (1 << 14) == 0
}

fn is_udp(frame: &[u8]) -> bool
    ensures { result ≡ is_udp frame.now }
{
    byte_at(frame, PACKET + 9) == 17
}

fn has_headers(frame: &[u8]) -> bool
    ensures { result ≡ has_headers frame.now }
{
    PACKET + head_of(frame) + UDP <= frame.len()
}

/// Where the UDP header begins.
fn udp_of(frame: &[u8]) -> usize
    ensures place { result ≡ udp_of frame.now }
    ensures few { result ≤ 74 }
{
    PACKET + head_of(frame)
}

fn from_of(frame: &[u8]) -> u16
    ensures { result ≡ from_of frame.now }
{
    big_at(frame, udp_of(frame))
}

fn to_of(frame: &[u8]) -> u16
    ensures { result ≡ to_of frame.now }
{
    big_at(frame, udp_of(frame) + 2)
}

fn length_of(frame: &[u8]) -> usize
    ensures bytes { result ≡ length_of frame.now }
    ensures few { result < 2 ^ 16 }
{
    big_at(frame, udp_of(frame) + 4) as usize
}

fn has_port(port: u16, frame: &[u8]) -> bool
    ensures { result ≡ has_port port frame.now }
{
    from_of(frame) == port || to_of(frame) == port
}

fn has_room(frame: &[u8]) -> bool
    ensures { result ≡ has_room frame.now }
{
    20 <= head_of(frame) && head_of(frame) + UDP <= total_of(frame)
}

fn is_packet(frame: &[u8]) -> bool
    ensures { result ≡ is_packet frame.now }
{
    let right = is_ipv4(frame) && version_of(frame) == 4 && has_room(frame);
    right && is_unfragmented(frame) && is_udp(frame) && has_headers(frame)
}

fn fits_packet(frame: &[u8]) -> bool
    ensures fits { result ≡ fits_packet frame.now }
    ensures least { IsTrue result → 8 ≤ length_of frame.now }
{
    let length = length_of(frame);
    UDP <= length && length <= total_of(frame).saturating_sub(head_of(frame))
}

fn is_datagram(port: u16, frame: &[u8]) -> bool
    ensures all { result ≡ is_datagram port frame.now }
    ensures least { IsTrue result → 8 ≤ length_of frame.now }
{
    is_packet(frame) && fits_packet(frame) && has_port(port, frame)
}

fn is_stored(frame: &[u8]) -> bool
    ensures { result ≡ is_stored frame.now }
{
    udp_of(frame) + length_of(frame) <= frame.len()
}

/// The bytes that the UDP length counts behind its header.
fn payload_of(alloc: Global, frame: &[u8]) -> Result<Bytes, Memory>
    requires least { 8 ≤ length_of frame.now }
    requires stored { udp_of frame.now + length_of frame.now ≤ length frame.now }
    ensures { IfOk result (λ payload. payload ≡ payload_of frame.now) }
{
    let udp = udp_of(frame);
    let payload = &frame[udp + UDP..udp + length_of(frame)];
    Ok(Items::from_vec(Vec::from_slice(alloc, payload)?))
}

/// What the frame of the record with this number is, for this port.
#[tactic(auto, unfolding(crate::specs::Frame::item_of))]
pub fn item_of(alloc: Global, port: u16, number: u64, frame: &[u8]) -> Result<PcapItem, Memory>
    ensures { IfOk result (λ item. item ≡ item_of port number frame.now) }
{
    if !is_datagram(port, frame) {
        return Ok(PcapItem::Other { number });
    }
    if !is_stored(frame) {
        return Ok(PcapItem::Cut { number });
    }
    let payload = payload_of(alloc, frame)?;
    Ok(PcapItem::Datagram {
        number,
        from: from_of(frame),
        to: to_of(frame),
        payload,
    })
}
