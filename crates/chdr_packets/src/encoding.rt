//! The canonical spelling of a packet.
ghost use Rattle.std.specs.Prelude.{◌≡◌, ◌<◌, ◌≤◌, ◌^◌, ◌++◌, All, IfOk, IfSome, OnOk, length, replicate};
ghost use Rattle.chdr_words.specs.Control.{time_spelled};
ghost use Rattle.chdr_words.specs.Field.{words_bytes};
ghost use Rattle.chdr_packets.specs.Fits.{FitsBody, FitsPacket};
ghost use Rattle.chdr_packets.specs.Grammar.{IsCanon, body_time, body_type, header_for};
ghost use Rattle.chdr_packets.specs.Length.{length_of, wire_of};
ghost use Rattle.chdr_packets.specs.Writing.{Appends};

use crate::packet::{Body, Packet};
use chdr_words::{
    Bytes, Header, PktType, encode_command, encode_control, encode_management, encode_status,
    wire_size,
};
use rf_base::{Items, Memory};
use std::alloc::Global;

fn time_of(body: &Body) -> Option<u64>
    ensures { result ≡ body_time body.now }
{
    match body {
        Body::Samples { time, .. } => *time,
        Body::Status(_) | Body::Command(_) | Body::Control(_) | Body::Management(_) => None,
    }
}

fn type_of(body: &Body) -> PktType
    ensures { result ≡ body_type body.now }
{
    match body {
        Body::Samples { time: None, .. } => PktType::Plain,
        Body::Samples { time: Some(_), .. } => PktType::Timed,
        Body::Status(_) => PktType::Status,
        Body::Command(_) => PktType::Command,
        Body::Control(_) => PktType::Control,
        Body::Management(_) => PktType::Management,
    }
}

fn header_of(p: &Packet, length: u16) -> Header
    requires fits { FitsPacket p.now }
    requires length { length ≡ length_of p.now }
    ensures { result ≡ header_for p.now (length_of p.now) }
{
    Header {
        vc: p.vc,
        eob: p.eob,
        eov: p.eov,
        pkt_type: type_of(&p.body),
        num_mdata: p.mdata.len() as u8,
        seq: p.seq,
        length,
        dst: p.dst,
    }
}

fn put_time(out: &mut Vec<u8>, time: Option<u64>) -> Result<(), Memory>
    ensures bytes { OnOk result (out.new.items ≡ out.old.items ++ time_spelled time) }
    ensures ranged { IfSome time (λ time. time < 2 ^ 64) }
{
    if let Some(time) = time {
        out.extend_from_slice(&time.to_le_bytes())?;
    }
    Ok(())
}

fn put_words(out: &mut Vec<u8>, words: &[u64]) -> Result<(), Memory>
    ensures bytes { OnOk result (out.new.items ≡ out.old.items ++ words_bytes words.now) }
    ensures ranged { All (λ word. word < 2 ^ 64) words.now }
{
    for word in words {
        out.extend_from_slice(&word.to_le_bytes())?;
    }
    Ok(())
}

fn put_body(alloc: Global, out: &mut Vec<u8>, body: &Body) -> Result<(), Memory>
    requires { FitsBody body.now }
    ensures { OnOk result (Appends body.now out.old.items out.new.items) }
{
    match body {
        Body::Samples { payload, .. } => out.extend_from_slice(payload.as_slice())?,
        Body::Status(status) => out.extend_from_slice(&encode_status(status))?,
        Body::Command(command) => out.extend_from_slice(&encode_command(command))?,
        Body::Control(control) => {
            let mut bytes = [0; 80];
            let size = encode_control(control, &mut bytes);
            out.extend_from_slice(&bytes[..size])?;
        }
        Body::Management(management) => {
            let bytes = encode_management(alloc, management)?;
            out.extend_from_slice(bytes.as_slice())?;
        }
    }
    Ok(())
}

fn put_pad(out: &mut Vec<u8>, count: usize) -> Result<(), Memory>
    requires { count ≤ 8 }
    ensures { OnOk result (out.new.items ≡ out.old.items ++ replicate count 0) }
{
    out.extend_from_slice(&[0; 8][..count])?;
    Ok(())
}

fn write(alloc: Global, p: &Packet) -> Result<Vec<u8>, Memory>
    requires { FitsPacket p.now }
    ensures { IfOk result (λ out. IsCanon p.now out.items) }
{
    let length = p.length();
    let size = wire_size(length) as usize;
    let mut out = Vec::with_capacity(alloc, size)?;
    out.extend_from_slice(&header_of(p, length).write().to_le())?;
    put_time(&mut out, time_of(&p.body))?;
    put_words(&mut out, p.mdata.as_slice())?;
    put_body(alloc, &mut out, &p.body)?;
    put_pad(&mut out, size - length as usize)?;
    Ok(out)
}

/// The canonical spelling of the packet.
///
/// Rule: docs/wire-format.md, "Packets".
pub fn encode(alloc: Global, p: &Packet) -> Result<Bytes, Memory>
    requires { FitsPacket p.now }
    ensures canonical { IfOk result (λ bytes. IsCanon p.now bytes) }
    ensures size { IfOk result (λ bytes. length bytes ≡ wire_of p.now) }
{
    Ok(Items::from_vec(write(alloc, p)?))
}
