ghost use Rattle.std.specs.Prelude.{IsTrue, ◌↔◌, ◌≡◌, ◌/◌, ◌*◌, ◌+◌, ◌<◌, ◌≤◌, ◌++◌, ◌∷◌, ◌⊎◌, [], ◌^◌, ◌-◌, IfOk, OnOk, length, vec_len, vec_capacity};
ghost use Rattle.block_library.specs.Places.{IsAt};
ghost use Rattle.block_library.specs.Blocks.{HoldsSamples, holds_samples, passes_whole, is_left_out, payload_in, time_in, samples_in, sample_at, kept_samples, resampled, repeated_samples, repeated_part, repeated_packet, replayed_group};

use chdr_packets::{Body, Packet};
use rf_base::{Copyable, Items, Memory};
use std::alloc::Global;

/// What is made before a packet is fed; behind the first packets is room for those that are moved.
#[derive(Drop)]
pub struct Made {
    pub first: Vec<Packet>,
    pub second: Vec<Packet>,
    pub room: usize,
    ghost fits: { vec_len first + room ≤ vec_capacity first },
}

impl Made {
    /// These packets, with room for `room` more.
    pub fn of(mut first: Vec<Packet>, second: Vec<Packet>, room: usize) -> Result<Made, Memory>
        ensures first { IfOk result (λ made. made.first.items ≡ first.items) }
        ensures second { IfOk result (λ made. made.second.items ≡ second.items) }
        ensures room { IfOk result (λ made. made.room ≡ room) }
    {
        first.reserve(room)?;
        Ok(Made {
            first,
            second,
            room,
        })
    }
}

/// The time and the samples of a packet.
fn samples_of(packet: &Packet) -> (Option<u64>, &[u8])
    ensures time { result.0 ≡ time_in packet.now.body }
    ensures payload { result.1.now ≡ payload_in packet.now.body }
{
    match &packet.body {
        Body::Samples { time, payload } => (*time, payload.as_slice()),
        Body::Status(_) | Body::Command(_) | Body::Control(_) | Body::Management(_) => (None, &[]),
    }
}

/// Whether a body holds whole samples.
pub fn holds_samples(item: u32, body: &Body) -> bool
    requires { (item ≡ 4) ⊎ (item ≡ 8) }
    ensures whole { IsTrue result ↔ HoldsSamples item body.now }
    ensures value { result ≡ holds_samples item body.now }
{
    match body {
        Body::Samples { time: _, payload } => payload.len() % item as usize == 0,
        Body::Status(_) | Body::Command(_) | Body::Control(_) | Body::Management(_) => false,
    }
}

/// Whether keep and repeat by n pass the packet as it is.
pub fn passes_whole(n: u16, item: u32, packet: &Packet) -> bool
    requires { (item ≡ 4) ⊎ (item ≡ 8) }
    ensures { result ≡ passes_whole n item packet.now }
{
    n == 1 && holds_samples(item, &packet.body)
}

/// Whether keep leaves the packet out: it has no samples and doesn't end a burst.
pub fn is_left_out(packet: &Packet) -> bool
    ensures { result ≡ is_left_out packet.now }
{
    samples_of(packet).1.is_empty() && !packet.eob
}

/// How many samples a packet has.
pub fn sample_count(item: u32, packet: &Packet) -> usize
    requires { (item ≡ 4) ⊎ (item ≡ 8) }
    ensures value { result ≡ samples_in item packet.now }
    ensures small { result < 2 ^ 62 }
{
    samples_of(packet).1.len() / item as usize
}

/// One list of one copy.
pub fn copied(alloc: Global, packet: &Packet) -> Result<Vec<Packet>, Memory>
    ensures { IfOk result (λ made. made.items ≡ packet.now ∷ []) }
{
    let mut made = Vec::new(alloc);
    made.push(packet.copy()?)?;
    Ok(made)
}

/// The packet with the samples that keep leaves, where the first has this number modulo n.
pub fn kept(
    alloc: Global,
    n: u16,
    item: u32,
    phase: u32,
    packet: &Packet,
) -> Result<Vec<Packet>, Memory>
    requires n { 1 ≤ n }
    requires item { (item ≡ 4) ⊎ (item ≡ 8) }
    requires phase { phase < 1024 }
    ensures { IfOk result (λ made. made.items ≡ resampled packet.now (kept_samples n item phase
        (payload_in packet.now.body) (samples_in item packet.now))) }
{
    let (time, samples) = samples_of(packet);
    let bytes = kept_bytes(alloc, n, item, phase, samples)?;
    let mut made = Vec::new(alloc);
    if !bytes.is_empty() || packet.eob {
        made.push(Packet {
            vc: packet.vc,
            eob: packet.eob,
            eov: packet.eov,
            seq: packet.seq,
            dst: packet.dst,
            mdata: packet.mdata.copy()?,
            body: Body::Samples {
                time,
                payload: Items::from_vec(bytes),
            },
        })?;
    }
    Ok(made)
}

/// The samples that keep leaves, found one after another without a look at those between.
fn kept_bytes(
    alloc: Global,
    n: u16,
    item: u32,
    phase: u32,
    samples: &[u8],
) -> Result<Vec<u8>, Memory>
    requires n { 1 ≤ n }
    requires item { (item ≡ 4) ⊎ (item ≡ 8) }
    requires phase { phase < 1024 }
    ensures { IfOk result (λ bytes. bytes.items ≡ kept_samples n item phase samples.now (length
        samples.now / item)) }
{
    let mut bytes = Vec::with_capacity(alloc, samples.len() / n as usize)?;
    let count = samples.len() / item as usize;
    let mut index = (n as usize - phase as usize % n as usize) % n as usize;
    while index < count {
        push_sample(&mut bytes, item, samples, index)?;
        index += n as usize;
    }
    Ok(bytes)
}

/// Appends the sample of this number.
#[tactic(auto, using(crate::proofs::SampleLemmas::sample_at_range))]
fn push_sample(bytes: &mut Vec<u8>, item: u32, samples: &[u8], index: usize) -> Result<(), Memory>
    requires item { (item ≡ 4) ⊎ (item ≡ 8) }
    requires within { index < length samples.now / item }
    ensures { IfOk result (λ _. bytes.new.items ≡ bytes.old.items ++ sample_at item samples.now
        index) }
{
    let start = item as usize * index;
    bytes.extend_from_slice(&samples[start..start + item as usize])?;
    Ok(())
}

/// The packets that repeat makes of one.
#[tactic(auto, unfolding(crate::specs::Blocks::repeated_packet))]
pub fn repeated(alloc: Global, n: u16, item: u32, packet: &Packet) -> Result<Vec<Packet>, Memory>
    requires n { 1 ≤ n }
    requires high { n ≤ 16 }
    requires item { (item ≡ 4) ⊎ (item ≡ 8) }
    ensures { IfOk result (λ made. made.items ≡ repeated_packet n item packet.now) }
{
    if sample_count(item, packet) == 0 {
        return copied(alloc, packet);
    }
    let mut made = Vec::with_capacity(alloc, n as usize)?;
    let mut place = Place { index: 0, turn: 0 };
    for k in 0..n {
        let next = part(alloc, n, item, packet, k, &mut place)?;
        made.push(next)?;
    }
    Ok(made)
}

/// Where repeat stands in a packet: at this sample, of which this number is written.
#[derive(Clone, Copy)]
struct Place {
    index: usize,
    turn: u16,
}

/// Packet `k` of a repeated one.
fn part(
    alloc: Global,
    n: u16,
    item: u32,
    packet: &Packet,
    k: u16,
    place: &mut Place,
) -> Result<Packet, Memory>
    requires within { k < n }
    requires item { (item ≡ 4) ⊎ (item ≡ 8) }
    requires place { IsAt n place.old (k * samples_in item packet.now) }
    ensures part { IfOk result (λ made. made ≡ repeated_part n item packet.now k) }
    ensures place { OnOk result (IsAt n place.new ((k + 1) * samples_in item packet.now)) }
{
    let (time, samples) = samples_of(packet);
    let payload = Items::from_vec(repeated_bytes(alloc, n, item, samples, k, place)?);
    let last = k + 1 == n;
    Ok(Packet {
        vc: packet.vc,
        eob: packet.eob && last,
        eov: packet.eov && last,
        seq: packet.seq,
        dst: packet.dst,
        mdata: packet.mdata.copy()?,
        body: Body::Samples {
            time: if k == 0 { time } else { None },
            payload,
        },
    })
}

fn repeated_bytes(
    alloc: Global,
    n: u16,
    item: u32,
    samples: &[u8],
    k: u16,
    place: &mut Place,
) -> Result<Vec<u8>, Memory>
    requires within { k < n }
    requires item { (item ≡ 4) ⊎ (item ≡ 8) }
    requires place { IsAt n place.old (k * (length samples.now / item)) }
    ensures bytes { IfOk result (λ bytes. let count = length samples.now / item in bytes.items ≡
        repeated_samples n item samples.now (k * count) count) }
    ensures place { OnOk result (IsAt n place.new ((k + 1) * (length samples.now / item))) }
{
    let count = samples.len() / item as usize;
    let mut bytes = Vec::with_capacity(alloc, samples.len())?;
    for _i in 0..count {
        let index = place.index;
        prove!(index < count);
        push_sample(&mut bytes, item, samples, index)?;
        place.step(n);
    }
    Ok(bytes)
}

impl Place {
    fn step(&mut self, n: u16)
        requires turn { self.old.turn < n }
        requires low { self.old.index < 2 ^ 64 - 1 }
        ensures { IsAt n self.new (self.old.index * n + self.old.turn + 1) }
    {
        self.turn += 1;
        if self.turn == n {
            self.turn = 0;
            self.index += 1;
        }
    }
}

/// The group with the packet, n times.
#[tactic(auto, unfolding(crate::specs::Blocks::replayed_group), using(crate::proofs::SampleLemmas::flat_map_more))]
pub fn replayed(
    alloc: Global,
    n: u16,
    group: &[Packet],
    packet: &Packet,
) -> Result<Vec<Packet>, Memory>
    requires { n ≤ 16 }
    ensures { IfOk result (λ made. made.items ≡ replayed_group n (group.now ++ packet.now ∷ [])) }
{
    let mut made = Vec::new(alloc);
    for _turn in 0..n {
        push_group(&mut made, group, packet)?;
    }
    Ok(made)
}

fn push_group(made: &mut Vec<Packet>, group: &[Packet], packet: &Packet) -> Result<(), Memory>
    ensures { IfOk result (λ _. made.new.items ≡ made.old.items ++ (group.now ++ packet.now ∷ [])) }
{
    for member in group {
        made.push(member.copy()?)?;
    }
    made.push(packet.copy()?)?;
    Ok(())
}
