//! The packet at the front of bytes.
ghost use Rattle.std.specs.Prelude.{◌≡◌, ◌↔◌, ◌+◌, ◌*◌, ◌≤◌, ◌==◌, ◌<◌, ◌&&◌, length, Some, None, Ok, IsOk, IsTrue, IfOk, IfSome, take, ℕ, IfNone, Option};
ghost use Rattle.std.specs.List.{list_all};
ghost use Rattle.chdr_words.specs.Field.{words_at};
ghost use Rattle.chdr_packets.specs.Fits.{FitsPacket};
ghost use Rattle.chdr_packets.specs.Grammar.{IsCanon, Spells, is_plain, payload_plain, start_of, type_time};
ghost use Rattle.chdr_packets.specs.Refusals.{HasMemory, IsShort, Refuses};
ghost use Rattle.chdr_packets.specs.Reading.{Gives, IsFaultOf, IsFramed, IsSized, body_read, frame_read, is_canonical_front, is_reserved, marked, packet_read, passed, time_at};

use crate::fault::PacketFault;
use crate::packet::{Body, Front, Packet};
use chdr_words::{
    Bytes, Header, MsgFault, PktType, Word, WordList, decode_command, decode_control,
    decode_management, decode_status, is_control, is_management, is_plain_control,
    is_plain_management, is_plain_status, wire_size, word_at,
};
use rf_base::{Items, Memory};
use std::alloc::Global;

fn type_time(pkt_type: PktType) -> usize
    ensures { result ≡ type_time pkt_type }
{
    match pkt_type {
        PktType::Management
        | PktType::Status
        | PktType::Command
        | PktType::Control
        | PktType::Plain
        | PktType::Reserved(_) => 0,
        PktType::Timed => 8,
    }
}

fn start_of(header: &Header) -> usize
    ensures { result ≡ start_of header.now }
{
    8 + type_time(header.pkt_type) + 8 * header.num_mdata as usize
}

fn is_reserved(pkt_type: PktType) -> bool
    ensures { result ≡ is_reserved pkt_type }
{
    match pkt_type {
        PktType::Management
        | PktType::Status
        | PktType::Command
        | PktType::Control
        | PktType::Plain
        | PktType::Timed => false,
        PktType::Reserved(_) => true,
    }
}

/// The header of the packet at the front, where its tests pass and the whole packet is there.
fn frame(b: &[u8]) -> Result<Option<Header>, PacketFault>
    ensures reads { result ≡ frame_read b.now }
    ensures framed { IfOk result (λ found. IfSome found (λ header. IsFramed header b.now)) }
{
    if b.len() < 8 {
        return Ok(None);
    }
    let header = Header::read(Word(word_at(b, 0)));
    if is_reserved(header.pkt_type) {
        return Err(PacketFault::ReservedType);
    }
    if (header.length as usize) < start_of(&header) {
        return Err(PacketFault::BadLength);
    }
    if b.len() < wire_size(header.length) as usize {
        return Ok(None);
    }
    Ok(Some(header))
}

fn time_of(pkt_type: PktType, b: &[u8]) -> Option<u64>
    requires { 8 + type_time pkt_type ≤ length b.now }
    ensures { result ≡ time_at pkt_type b.now }
{
    match pkt_type {
        PktType::Management
        | PktType::Status
        | PktType::Command
        | PktType::Control
        | PktType::Plain
        | PktType::Reserved(_) => None,
        PktType::Timed => Some(word_at(b, 8)),
    }
}

#[tactic(auto, using(chdr_words::proofs::WordLemmas::more))]
fn mdata_of(alloc: Global, b: &[u8], at: usize, count: usize) -> Result<WordList, Memory>
    requires { at + 8 * count ≤ length b.now }
    ensures { IfOk result (λ mdata. mdata ≡ words_at b.now at count) }
{
    let mut mdata = Items::new(alloc);
    for k in 0..count {
        mdata.push(word_at(b, at + 8 * k))?;
    }
    Ok(mdata)
}

fn management_of(alloc: Global, payload: &[u8]) -> Result<Body, PacketFault>
    ensures { Gives result (body_read PktType.Management None payload.now) }
{
    match decode_management(alloc, payload) {
        Ok(management) => Ok(Body::Management(management)),
        Err(MsgFault::Memory) => Err(PacketFault::Memory),
        Err(fault) => Err(PacketFault::Message(fault)),
    }
}

fn copy_of(alloc: Global, payload: &[u8]) -> Result<Bytes, Memory>
    ensures { IfOk result (λ bytes. bytes ≡ payload.now) }
{
    Ok(Items::from_vec(Vec::from_slice(alloc, payload)?))
}

fn body_of(
    alloc: Global,
    pkt_type: PktType,
    time: Option<u64>,
    payload: &[u8],
) -> Result<Body, PacketFault>
    ensures reads { Gives result (body_read pkt_type time payload.now) }
    ensures sized { IsOk result → IsSized pkt_type payload.now }
{
    match pkt_type {
        PktType::Management => management_of(alloc, payload),
        PktType::Status => match decode_status(payload) {
            Ok(status) => Ok(Body::Status(status)),
            Err(fault) => Err(PacketFault::Message(fault)),
        },
        PktType::Command => match decode_command(payload) {
            Ok(command) => Ok(Body::Command(command)),
            Err(fault) => Err(PacketFault::Message(fault)),
        },
        PktType::Control => match decode_control(payload) {
            Ok(control) => Ok(Body::Control(control)),
            Err(fault) => Err(PacketFault::Message(fault)),
        },
        PktType::Plain | PktType::Timed => Ok(Body::Samples {
            time,
            payload: copy_of(alloc, payload)?,
        }),
        PktType::Reserved(_) => Err(PacketFault::ReservedType),
    }
}

fn is_zero(bytes: &[u8]) -> bool
    ensures { result ≡ list_all (λ byte. byte == 0) bytes.now }
{
    bytes.iter().all(|byte| *byte == 0)
}

fn payload_fault(pkt_type: PktType, payload: &[u8]) -> Option<PacketFault>
    ensures fault { (time : Option ℕ) → IsFaultOf result (body_read pkt_type time payload.now) }
    ensures sized { IfNone result (IsSized pkt_type payload.now) }
{
    match pkt_type {
        PktType::Management if !is_management(payload) => {
            Some(PacketFault::Message(MsgFault::BadManagement))
        }
        PktType::Status if payload.len() != 32 => {
            Some(PacketFault::Message(MsgFault::BadStatusLength))
        }
        PktType::Command if payload.len() != 16 => {
            Some(PacketFault::Message(MsgFault::BadCommandLength))
        }
        PktType::Control if !is_control(payload) => {
            Some(PacketFault::Message(MsgFault::BadControlLength))
        }
        PktType::Reserved(_) => Some(PacketFault::ReservedType),
        PktType::Management
        | PktType::Status
        | PktType::Command
        | PktType::Control
        | PktType::Plain
        | PktType::Timed => None,
    }
}

/// Whether reserved bits are zero, and a control payload has its rounded size.
fn is_plain_payload(pkt_type: PktType, payload: &[u8]) -> bool
    requires { IsSized pkt_type payload.now }
    ensures { result ≡ payload_plain pkt_type payload.now }
{
    match pkt_type {
        PktType::Management => is_plain_management(payload),
        PktType::Status => is_plain_status(payload),
        PktType::Control => is_plain_control(payload),
        PktType::Command | PktType::Plain | PktType::Timed | PktType::Reserved(_) => true,
    }
}

#[tactic(auto, unfolding(crate::specs::Reading::packet_read))]
fn read(alloc: Global, b: &[u8]) -> Result<Option<Front>, PacketFault>
    ensures { Gives result (marked b.now (packet_read b.now)) }
{
    let header = match frame(b)? {
        None => return Ok(None),
        Some(header) => header,
    };
    let size = wire_size(header.length) as usize;
    let time = time_of(header.pkt_type, b);
    let payload = &b[start_of(&header)..header.length as usize];
    let body = body_of(alloc, header.pkt_type, time, payload)?;
    let mdata = mdata_of(
        alloc,
        b,
        8 + type_time(header.pkt_type),
        header.num_mdata as usize,
    )?;
    let packet = Packet {
        vc: header.vc,
        eob: header.eob,
        eov: header.eov,
        seq: header.seq,
        dst: header.dst,
        mdata,
        body,
    };
    let pad = &b[header.length as usize..size];
    Ok(Some(Front {
        packet,
        size,
        canonical: is_plain(header.pkt_type, payload, pad),
    }))
}

/// The packet at the front of the bytes, or `None` if it isn't there whole yet.
///
/// The tests come in the order type, Length, size, payload, and each is made once.
/// Rule: docs/wire-format.md, "Packets".
pub fn read_front(alloc: Global, b: &[u8]) -> Result<Option<Front>, PacketFault>
    ensures exact { Gives result (marked b.now (packet_read b.now)) }
    ensures spells { IfOk result (λ found. IfSome found (λ x. Spells x.packet (take x.size b.now))) }
    ensures marks { IfOk result (λ found. IfSome found (λ x.
        IsTrue x.canonical ↔ IsCanon x.packet (take x.size b.now))) }
    ensures fits { IfOk result (λ found. IfSome found (λ x. FitsPacket x.packet)) }
    ensures within { IfOk result (λ found. IfSome found (λ x.
        (x.size ≤ length b.now) × (8 ≤ x.size))) }
    ensures few { result ≡ Ok None → length b.now < 65536 }
{
    read(alloc, b)
}

fn read_sized(alloc: Global, b: &[u8]) -> Result<Option<(Packet, usize)>, PacketFault>
    ensures { Gives result (packet_read b.now) }
{
    match read(alloc, b) {
        Ok(None) => Ok(None),
        Ok(Some(front)) => Ok(Some((front.packet, front.size))),
        Err(fault) => Err(fault),
    }
}

/// The packet at the front of the bytes and its size, as `read_front`.
pub fn decode(alloc: Global, b: &[u8]) -> Result<Option<(Packet, usize)>, PacketFault>
    ensures spells { IfOk result (λ found. IfSome found (λ x. Spells x.0 (take x.1 b.now))) }
    ensures fits { IfOk result (λ found. IfSome found (λ x. FitsPacket x.0)) }
    ensures accepts { (p : Packet) (n : ℕ) → n ≤ length b.now → Spells p (take n b.now)
        → Gives result (Ok (Some (p, n))) }
    ensures none { HasMemory result → ((result ≡ Ok None) ↔ IsShort b.now) }
    ensures refuses { HasMemory result → Refuses result b.now }
    ensures exact { Gives result (packet_read b.now) }
    ensures within { IfOk result (λ found. IfSome found (λ x. (x.1 ≤ length b.now) × (8 ≤ x.1))) }
    ensures few { result ≡ Ok None → length b.now < 65536 }
{
    read_sized(alloc, b)
}

/// Whether the payload is canonical, and the pad bytes are zero.
fn is_plain(pkt_type: PktType, payload: &[u8], pad: &[u8]) -> bool
    requires { IsSized pkt_type payload.now }
    ensures { result ≡
        (payload_plain pkt_type payload.now && list_all (λ byte. byte == 0) pad.now) }
{
    is_plain_payload(pkt_type, payload) && is_zero(pad)
}

#[tactic(auto, unfolding(crate::specs::Reading::packet_read))]
fn scan(b: &[u8]) -> Result<Option<(usize, bool)>, PacketFault>
    ensures { result ≡ passed b.now (packet_read b.now) }
{
    let header = match frame(b)? {
        None => return Ok(None),
        Some(header) => header,
    };
    let size = wire_size(header.length) as usize;
    let payload = &b[start_of(&header)..header.length as usize];
    if let Some(fault) = payload_fault(header.pkt_type, payload) {
        return Err(fault);
    }
    let pad = &b[header.length as usize..size];
    Ok(Some((size, is_plain(header.pkt_type, payload, pad))))
}

/// What `decode` finds, of which only the size and whether the bytes are canonical.
///
/// It takes no memory.
pub fn pass(b: &[u8]) -> Result<Option<(usize, bool)>, PacketFault>
    ensures exact { result ≡ passed b.now (packet_read b.now) }
    ensures within { IfOk result (λ found. IfSome found (λ x. (x.0 ≤ length b.now) × (8 ≤ x.0))) }
    ensures few { result ≡ Ok None → length b.now < 65536 }
{
    scan(b)
}

/// Whether there is a packet at the front, and its bytes are its canonical spelling.
pub fn is_canonical(b: &[u8]) -> bool
    ensures exact { result ≡ is_canonical_front b.now }
    ensures found { (p : Packet) (n : ℕ) → packet_read b.now ≡ Ok (Some (p, n))
        → result ≡ is_plain b.now }
{
    match pass(b) {
        Ok(Some((_, canonical))) => canonical,
        Ok(None) | Err(_) => false,
    }
}
