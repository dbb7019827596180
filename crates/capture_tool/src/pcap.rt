//! The datagrams of a pcap file, listed as it comes.
//!
//! Rule: docs/scripts-and-reports.md, "Captures of an interface".
ghost use Rattle.std.specs.Prelude.{◌≡◌, ◌⊎◌, ◌+◌, ◌*◌, ◌≤◌, ◌++◌, ◌<◌, ◌^◌, length, IfOk, IfSome, OnOk};
ghost use Rattle.std.specs.Io.KnownBytes.{IsAtEnd};
ghost use Rattle.chdr_stream.specs.Capture.{capture_of};
ghost use Rattle.pcap_input.specs.Rest.{payload_in};
ghost use Rattle.rf_outside.specs.Bytes.{AddsPrefix};
ghost use Rattle.rf_outside.specs.Causes.{Rose};
ghost use Rattle.capture_tool.specs.Outcome.{PcapTold};
ghost use Rattle.capture_tool.specs.Pcap.{fault_text, faults_of, item_text, item_totals, no_totals, payload_fault, payload_text, pcap_listed, pcap_status, pcap_why, record_line, seen_line, summed, totals_line};
ghost use Rattle.capture_tool.specs.PcapFollows.{IsCounted, IsPcapAt, PcapLists, pcap_last_fault};
ghost use Rattle.capture_tool.specs.Seen.{limit};

use crate::packets::{LIMIT, last_fault, list_packets, long_fault, progress_of};
use crate::seen::{Fault, Why};
use crate::text::put_fault;
use chdr_stream::{Decoder, FinishFault};
use pcap_input::{PcapFault, PcapItem, PcapReader, PcapReason};
use rf_base::{Bytes, Memory};
use rf_outside::{PieceReader, Progress, Sink, Source, Stop, Text, read_pieces};
use std::alloc::Global;
use std::marker::Model;

/// What the records of a file are, and what their datagrams hold.
#[derive(Clone, Copy, Debug, PartialEq, Eq)]
pub struct Totals {
    pub records: u64,
    /// Datagrams of the port that are stored whole.
    pub datagrams: u64,
    /// Datagrams of the port that aren't.
    pub cut: u64,
    pub packets: u64,
    /// Datagrams whose payload has a fault.
    pub faults: u64,
}

/// What is seen of a pcap file.
#[derive(Clone, Copy, Debug, PartialEq, Eq)]
pub struct PcapSeen {
    pub totals: Totals,
    pub fault: Option<Fault>,
}

fn pcap_why(reason: PcapReason) -> Why
    ensures { result ≡ pcap_why reason }
{
    match reason {
        PcapReason::BadMagic => Why::BadMagic,
        PcapReason::BadVersion => Why::BadVersion,
        PcapReason::BadLink => Why::BadLink,
        PcapReason::BadRecord => Why::BadRecord,
    }
}

fn pcap_fault_at(at: u64, reason: PcapReason) -> Fault
    ensures { result ≡ record { at = at; why = pcap_why reason } }
{
    Fault {
        at,
        why: pcap_why(reason),
    }
}

fn put_record(page: &mut Text, number: u64, from: u16, to: u16, bytes: usize) -> Result<(), Memory>
    ensures { OnOk result (page.new ≡ page.old ++ record_line number from to bytes) }
{
    page.put_pair(b"record ", number, b" ", from as u64)?;
    page.put_pair(b">", to as u64, b" bytes ", bytes as u64)?;
    page.put(b"\n")
}

fn put_totals(page: &mut Text, totals: &Totals) -> Result<(), Memory>
    ensures { OnOk result (page.new ≡ page.old ++ totals_line totals.now) }
{
    page.put_pair(
        b"records ",
        totals.records,
        b" datagrams ",
        totals.datagrams,
    )?;
    page.put_pair(b" cut ", totals.cut, b" packets ", totals.packets)?;
    page.put_field(b" faults ", totals.faults)?;
    page.put(b"\n")
}

fn put_seen(page: &mut Text, seen: &PcapSeen) -> Result<(), Memory>
    ensures { OnOk result (page.new ≡ page.old ++ seen_line seen.now) }
{
    match seen.fault {
        None => put_totals(page, &seen.totals),
        Some(fault) => put_fault(page, fault),
    }
}

fn put_payload_fault(page: &mut Text, fault: Option<Fault>) -> Result<(), Memory>
    ensures { OnOk result (page.new ≡ page.old ++ fault_text fault) }
{
    match fault {
        None => Ok(()),
        Some(fault) => put_fault(page, fault),
    }
}

/// What the packets of a payload are: how many, and the first fault.
#[derive(Clone, Copy)]
struct Listed {
    packets: u64,
    fault: Option<Fault>,
}

/// Lists the packets of a payload, and its fault.
fn list_payload(payload: Bytes, page: &mut Text) -> Result<Listed, Memory>
    requires { length payload ≤ limit }
    ensures put { OnOk result (page.new ≡ page.old ++ payload_text payload) }
    ensures packets { IfOk result (λ listed. listed.packets ≡ length (capture_of payload).items) }
    ensures fault { IfOk result (λ listed. listed.fault ≡ payload_fault payload) }
    ensures few { IfOk result (λ listed. 8 * listed.packets ≤ length payload) }
{
    let mut decoder = Decoder::over(payload);
    let mut packets = 0;
    let stands = list_packets(&mut decoder, &mut packets, page)?;
    let fault = last_fault(stands, &decoder);
    put_payload_fault(page, fault)?;
    Ok(Listed { packets, fault })
}

fn one_of(fault: Option<Fault>) -> u64
    ensures { result ≡ faults_of fault }
{
    match fault {
        None => 0,
        Some(_) => 1,
    }
}

/// Lists a record, and returns what it counts for.
fn list_item(item: PcapItem, page: &mut Text) -> Result<Totals, Memory>
    requires { length (payload_in item) ≤ limit }
    ensures put { OnOk result (page.new ≡ page.old ++ item_text item) }
    ensures counts { IfOk result (λ totals. totals ≡ item_totals item) }
    ensures few { IfOk result (λ totals. 8 * totals.packets ≤ length (payload_in item)) }
{
    match item {
        PcapItem::Datagram {
            number,
            from,
            to,
            payload,
        } => {
            put_record(page, number, from, to, payload.len())?;
            let listed = list_payload(payload, page)?;
            Ok(Totals {
                records: 1,
                datagrams: 1,
                cut: 0,
                packets: listed.packets,
                faults: one_of(listed.fault),
            })
        }
        PcapItem::Cut { number: _ } => Ok(counted(1)),
        PcapItem::Other { number: _ } => Ok(counted(0)),
    }
}

/// A record that isn't listed.
fn counted(cut: u64) -> Totals
    ensures { result ≡ record { records = 1; datagrams = 0; cut = cut; packets = 0; faults = 0 } }
{
    Totals {
        records: 1,
        datagrams: 0,
        cut,
        packets: 0,
        faults: 0,
    }
}

fn summed(a: Totals, b: Totals) -> Totals
    requires records { a.records + b.records < 2 ^ 64 }
    requires datagrams { a.datagrams + b.datagrams < 2 ^ 64 }
    requires cut { a.cut + b.cut < 2 ^ 64 }
    requires packets { a.packets + b.packets < 2 ^ 64 }
    requires faults { a.faults + b.faults < 2 ^ 64 }
    ensures { result ≡ summed a b }
{
    Totals {
        records: a.records + b.records,
        datagrams: a.datagrams + b.datagrams,
        cut: a.cut + b.cut,
        packets: a.packets + b.packets,
        faults: a.faults + b.faults,
    }
}

/// Lists the records that are there; the fault if there is one.
fn list_records(
    reader: &mut PcapReader,
    totals: &mut Totals,
    page: &mut Text,
) -> Result<Option<Fault>, Memory>
    requires { IsCounted reader.old totals.old 0 }
    ensures lists { IfOk result (λ _.
        PcapLists reader.old reader.new totals.old totals.new page.old page.new) }
    ensures at { IfOk result (λ fault. IsPcapAt fault reader.new) }
    ensures within { IsCounted reader.new totals.new 0 }
    ensures place { reader.new.at + length reader.new.kept ≡
        reader.old.at + length reader.old.kept }
{
    loop {
        match reader.next() {
            Ok(Some(item)) => {
                let counts = list_item(item, page)?;
                *totals = summed(*totals, counts);
            }
            Ok(None) => return Ok(None),
            Err(PcapFault::Memory) => return Err(Memory),
            Err(PcapFault::Bad { at, reason }) => return Ok(Some(pcap_fault_at(at, reason))),
        }
    }
}

fn pcap_last_fault(fault: Option<Fault>, reader: &PcapReader) -> Option<Fault>
    requires { IsPcapAt fault reader.now }
    ensures { result ≡ pcap_last_fault fault reader.now }
{
    match fault {
        Some(fault) => Some(fault),
        None => match reader.finish() {
            Ok(()) => None,
            Err(FinishFault::Truncated { at }) => Some(Fault {
                at,
                why: Why::Truncated,
            }),
        },
    }
}

/// The exit status of a file that was listed whole.
fn pcap_status(seen: &PcapSeen) -> u8
    ensures { result ≡ pcap_status seen.now }
{
    match seen.fault {
        None => if seen.totals.faults == 0 { 0 } else { 7 },
        Some(_) => 7,
    }
}

/// Lists a pcap file as it comes.
#[derive(Drop)]
struct PcapLister {
    reader: PcapReader,
    totals: Totals,
    room: usize,
}

impl Model for PcapLister {
    ghost use Rattle.capture_tool.specs.PcapFollows.{IsCounted, PcapListed};

    ghost Value = { PcapListed };

    ghost view = { λ l. record { reader = l.reader; totals = l.totals; room = l.room } };

    ghost invariant = { λ l. IsCounted l.reader l.totals l.room };
}

impl PcapLister {
    ghost use Rattle.std.specs.Prelude.{◌≡◌};
    ghost use Rattle.pcap_input.specs.Reader.{opened};
    ghost use Rattle.capture_tool.specs.Pcap.{no_totals};
    ghost use Rattle.capture_tool.specs.Seen.{limit};

    fn new(alloc: Global, port: u16) -> PcapLister
        ensures { result ≡ record { reader = opened port; totals = no_totals; room = limit } }
    {
        PcapLister {
            reader: PcapReader::new(alloc, port),
            totals: Totals {
                records: 0,
                datagrams: 0,
                cut: 0,
                packets: 0,
                faults: 0,
            },
            room: LIMIT,
        }
    }
}

impl PieceReader for PcapLister {
    ghost use Rattle.std.specs.Prelude.{IsSome};
    ghost use Rattle.capture_tool.specs.PcapFollows.{pcap_listed_after, pcap_seen_after};

    type Seen = PcapSeen;

    ghost text = { λ s more. pcap_listed_after s more };

    ghost seen = { λ s more. pcap_seen_after s more };

    ghost room = { λ s. s.room };

    ghost IsEarly = { λ seen. IsSome seen.fault };

    fn read(&mut self, piece: &[u8], page: &mut Text) -> Result<Progress, Memory> {
        self.reader.feed(piece)?;
        self.room -= piece.len();
        let fault = list_records(&mut self.reader, &mut self.totals, page)?;
        Ok(progress_of(fault))
    }

    fn end(mut self, page: &mut Text) -> Result<PcapSeen, Memory> {
        let stands = list_records(&mut self.reader, &mut self.totals, page)?;
        let seen = PcapSeen {
            totals: self.totals,
            fault: pcap_last_fault(stands, &self.reader),
        };
        put_seen(page, &seen)?;
        Ok(seen)
    }

    fn pass_limit(mut self, page: &mut Text) -> Result<PcapSeen, Memory> {
        let stands = list_records(&mut self.reader, &mut self.totals, page)?;
        let seen = PcapSeen {
            totals: self.totals,
            fault: Some(long_fault(stands)),
        };
        put_seen(page, &seen)?;
        Ok(seen)
    }
}

/// Lists the packets in the UDP datagrams of a port, in a classic pcap file as it is read.
///
/// The status is 0, or 7 if the file or a datagram has a fault; 3 if a read failed, 4 if a write
/// did, 5 if memory ran out. Each piece that is read has its lines written before the next one is
/// asked for.
pub fn show_pcap<S: Source, K: Sink>(alloc: Global, src: &mut S, out: &mut K, port: u16) -> u8
    ensures statuses { (result ≡ 0) ⊎ (result ≡ 3) ⊎ (result ≡ 4) ⊎ (result ≡ 5) ⊎ (result ≡ 7) }
    ensures told { (result ≡ 0) ⊎ (result ≡ 7) → IfSome (S.left src.old) (λ bytes.
        PcapTold port bytes result (K.written out.old) (K.written out.new)) }
    ensures ended { result ≡ 0 → IsAtEnd (S.left src.new) }
    ensures read { result ≡ 3 → Rose (S.faults src.old) (S.faults src.new) }
    ensures write { result ≡ 4 → Rose (K.faults out.old) (K.faults out.new) }
    ensures prefix { (result ≡ 3) ⊎ (result ≡ 4) ⊎ (result ≡ 5) → IfSome (S.left src.old) (λ bytes.
        AddsPrefix (K.written out.old) (K.written out.new) (pcap_listed port bytes)) }
    ensures later { (S.faults src.old ≤ S.faults src.new) × (K.faults out.old ≤ K.faults out.new) }
{
    match read_pieces(alloc, src, out, PcapLister::new(alloc, port), LIMIT) {
        Ok(seen) => pcap_status(&seen),
        Err(Stop::Read) => 3,
        Err(Stop::Write) => 4,
        Err(Stop::Memory) => 5,
    }
}
