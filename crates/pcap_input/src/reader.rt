ghost use Rattle.std.specs.Prelude.{◌≡◌, ◌+◌, ◌<◌, ◌≤◌, ◌^◌, length, Ok, Err, None, Some, IsOk, IsSome, OnOk, OnErr, IfOk};
ghost use Rattle.pcap_input.specs.Frame.{item_of};
ghost use Rattle.pcap_input.specs.Record.{frame_at, record_size};
ghost use Rattle.pcap_input.specs.Reader.{Answers, Begins, IsDrained, Takes, after, begun, fed_with, finish_at, opened, past};

use crate::frame::item_of;
use crate::header::{HEADER, Order, read_header};
use crate::item::{PcapFault, PcapItem, PcapReason};
use crate::record_head::{RECORD, read_size};
use chdr_stream::{FinishFault, Window};
use rf_base::Memory;
use std::alloc::Global;
use std::marker::Model;

/// Takes the bytes of a pcap file in pieces, and gives what its records are for one UDP port.
///
/// Bytes that were passed take memory until a call finds no whole record. The bytes fed in all are
/// below 2^64.
#[derive(Debug, Drop)]
pub struct PcapReader {
    port: u16,
    order: Option<Order>,
    number: u64,
    window: Window,
    fault: Option<PcapReason>,
}

impl Model for PcapReader {
    ghost use Rattle.std.specs.Prelude.{◌*◌, ◌≤◌};
    ghost use Rattle.pcap_input.specs.Reader.{Pcap};

    ghost Value = { Pcap };

    ghost view = { λ r. record {
      port = r.port;
      order = r.order;
      number = r.number;
      at = r.window.at;
      kept = r.window.kept;
      fault = r.fault;
      held = r.window.held;
    } };

    ghost invariant = { λ r. 16 * r.number ≤ r.window.at };
}

impl PcapReader {
    pub fn new(alloc: Global, port: u16) -> PcapReader
        ensures { result ≡ opened port }
    {
        PcapReader {
            port,
            order: None,
            number: 0,
            window: Window::new(alloc),
            fault: None,
        }
    }

    /// Appends the piece; at a fault it changes nothing and is `Ok`.
    pub fn feed(&mut self, piece: &[u8]) -> Result<(), Memory>
        requires { self.old.at + length self.old.kept + length piece.now < 2 ^ 64 }
        ensures ok { OnOk result (self.new ≡ fed_with self.old piece.now) }
        ensures err { OnErr result (self.new ≡ self.old) }
        ensures behind { IsSome self.old.fault → IsOk result }
    {
        if self.fault.is_some() {
            return Ok(());
        }
        self.window.feed(piece)
    }

    /// Reads the header, if it wasn't read yet and is there.
    fn begin(&mut self) -> Result<Option<Order>, PcapReason>
        requires { self.old.fault ≡ None }
        ensures begins { self.new ≡ begun self.old }
        ensures found { Begins result self.new }
        ensures faultless { self.new.fault ≡ None }
        ensures few { result ≡ Ok None → length self.new.kept < 24 }
        ensures fed { self.new.at + length self.new.kept ≡ self.old.at + length self.old.kept }
    {
        if let Some(order) = self.order {
            return Ok(Some(order));
        }
        match read_header(self.window.kept()) {
            Ok(None) => Ok(None),
            Ok(Some(order)) => {
                self.window.pass(HEADER);
                self.order = Some(order);
                Ok(Some(order))
            }
            Err(reason) => Err(reason),
        }
    }

    /// Stays at a fault for good.
    fn stop(&mut self, reason: PcapReason) -> PcapFault
        ensures told { result ≡ PcapFault.Bad self.old.at reason }
        ensures stands { self.new ≡ after self.old (Err reason) }
    {
        self.fault = Some(reason);
        PcapFault::Bad {
            at: self.window.place(),
            reason,
        }
    }

    /// The next record; `None` if the header or the record isn't all there.
    ///
    /// At a fault it returns the same one again.
    pub fn next(&mut self) -> Result<Option<PcapItem>, PcapFault>
        ensures answers { Answers self.old self.new result }
        ensures drained { result ≡ Ok None → IsDrained self.new }
        ensures fed { self.new.at + length self.new.kept ≡ self.old.at + length self.old.kept }
        ensures few { result ≡ Ok None → self.new.held < 262160 }
    {
        if let Some(reason) = self.fault {
            return Err(PcapFault::Bad {
                at: self.window.place(),
                reason,
            });
        }
        match self.begin() {
            Ok(None) => {
                self.window.release();
                Ok(None)
            }
            Ok(Some(order)) => self.next_record(order),
            Err(reason) => Err(self.stop(reason)),
        }
    }

    /// The record at the front, behind the header.
    fn next_record(&mut self, order: Order) -> Result<Option<PcapItem>, PcapFault>
        requires faultless { self.old.fault ≡ None }
        requires order { self.old.order ≡ Some order }
        ensures answers { Takes self.old self.new result }
        ensures drained { result ≡ Ok None → IsDrained self.new }
        ensures fed { self.new.at + length self.new.kept ≡ self.old.at + length self.old.kept }
        ensures few { result ≡ Ok None → self.new.held < 262160 }
    {
        match read_size(order, self.window.kept()) {
            Ok(None) => {
                self.window.release();
                Ok(None)
            }
            Ok(Some(size)) => match self.take(size) {
                Ok(item) => Ok(Some(item)),
                Err(Memory) => Err(PcapFault::Memory),
            },
            Err(reason) => Err(self.stop(reason)),
        }
    }

    /// What the record at the front is, whose frame has `size` bytes.
    fn take(&mut self, size: usize) -> Result<PcapItem, Memory>
        requires { record_size + size ≤ length self.old.kept }
        ensures item { IfOk result (λ item.
            item ≡ item_of self.old.port self.old.number (frame_at self.old.kept size)) }
        ensures ok { OnOk result (self.new ≡ past self.old size) }
        ensures err { OnErr result (self.new ≡ self.old) }
    {
        let frame = &self.window.kept()[RECORD..RECORD + size];
        let item = item_of(self.window.allocator(), self.port, self.number, frame)?;
        self.window.pass(RECORD + size);
        self.number += 1;
        Ok(item)
    }

    /// The byte at which the bytes kept begin.
    pub fn place(&self) -> u64
        ensures { result ≡ self.now.at }
    {
        self.window.place()
    }

    /// Whether the file ends here: its header was read, and no bytes are left.
    pub fn finish(&self) -> Result<(), FinishFault>
        requires { IsDrained self.now }
        ensures { result ≡ finish_at self.now }
    {
        if self.order.is_some() && self.window.left() == 0 {
            return Ok(());
        }
        Err(FinishFault::Truncated {
            at: self.window.place(),
        })
    }
}
