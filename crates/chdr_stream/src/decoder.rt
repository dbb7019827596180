ghost use Rattle.std.specs.Prelude.{◌≡◌, ◌+◌, ◌<◌, ◌^◌, [], length, Ok, None, IsOk, IsSome, IfOk, IfSome, OnOk, OnErr, ◌≤◌};
ghost use Rattle.chdr_packets.specs.Fits.{FitsPacket};
ghost use Rattle.chdr_stream.specs.Places.{Passes};
ghost use Rattle.chdr_stream.specs.Stream.{Answers, after, fed_with, finish_at, passing_at, past, reading, released, stopped};

use crate::placed::{FinishFault, Passed, Placed, StreamFault};
use crate::window::Window;
use chdr_packets::{PacketFault, pass, read_front};
use rf_base::{Bytes, Memory};
use std::alloc::Global;
use std::marker::Model;

/// Takes bytes in pieces and gives packets.
///
/// Bytes that were passed take memory until a call finds no whole packet; from then on fewer than
/// 65,536 bytes are held. The bytes fed in all are below 2^64.
/// Rule: docs/wire-format.md, "Captures".
#[derive(Debug, Drop)]
pub struct Decoder {
    window: Window,
    fault: Option<PacketFault>,
}

impl Model for Decoder {
    ghost use Rattle.chdr_stream.specs.Stream.{Stream};

    ghost Value = { Stream };

    ghost view = { λ d. record {
      at = d.window.at;
      kept = d.window.kept;
      fault = d.fault;
      held = d.window.held;
    } };
}

impl Decoder {
    pub fn new(alloc: Global) -> Decoder
        ensures { result ≡ record { at = 0; kept = []; fault = None; held = 0 } }
    {
        Decoder {
            window: Window::new(alloc),
            fault: None,
        }
    }

    /// A decoder that was fed these bytes; it takes no memory.
    pub fn over(bytes: Bytes) -> Decoder
        requires { length bytes < 2 ^ 64 }
        ensures { result ≡ record { at = 0; kept = bytes; fault = None; held = length bytes } }
    {
        Decoder {
            window: Window::over(bytes),
            fault: None,
        }
    }

    /// Appends the piece; at a fault it changes nothing and is `Ok`.
    pub fn feed(&mut self, piece: &[u8]) -> Result<(), Memory>
        requires { self.old.at + length self.old.kept + length piece.now < 2 ^ 64 }
        ensures ok { OnOk result (self.new ≡ fed_with self.old piece.now) }
        ensures err { OnErr result (self.new ≡ self.old) }
        ensures behind { IsSome self.old.fault → IsOk result }
    {
        if self.fault.is_some() {
            return Ok(());
        }
        self.window.feed(piece)
    }

    /// Stays at a fault for good.
    fn stop(&mut self, fault: PacketFault) -> StreamFault
        ensures told { result ≡ StreamFault.Bad self.old.at fault }
        ensures stands { self.new ≡ stopped self.old fault }
    {
        self.fault = Some(fault);
        StreamFault::Bad {
            at: self.window.place(),
            fault,
        }
    }

    /// The next packet; `None` if its bytes aren't all there.
    ///
    /// At a fault it returns the same one again.
    pub fn next(&mut self) -> Result<Option<Placed>, StreamFault>
        ensures answers { Answers self.old self.new result }
        ensures spells { IfOk result (λ found. IfSome found (λ item.
            Passes self.old self.new item)) }
        ensures fits { IfOk result (λ found. IfSome found (λ item. FitsPacket item.packet)) }
        ensures fed { self.new.at + length self.new.kept ≡ self.old.at + length self.old.kept }
        ensures few { result ≡ Ok None → self.new.held < 65536 }
    {
        if let Some(fault) = self.fault {
            return Err(StreamFault::Bad {
                at: self.window.place(),
                fault,
            });
        }
        match read_front(self.window.allocator(), self.window.kept()) {
            Ok(None) => {
                self.window.release();
                Ok(None)
            }
            Ok(Some(front)) => Ok(Some(Placed {
                at: self.window.pass(front.size),
                canonical: front.canonical,
                packet: front.packet,
            })),
            Err(PacketFault::Memory) => Err(StreamFault::Memory),
            Err(fault) => Err(self.stop(fault)),
        }
    }

    /// As `next`, and tells only the packet's place and whether it is canonical.
    ///
    /// It takes no memory.
    pub fn pass(&mut self) -> Result<Option<Passed>, StreamFault>
        ensures answers { result ≡ passing_at self.old (reading self.old) }
        ensures moves { self.new ≡ after self.old (reading self.old) }
        ensures fed { self.new.at + length self.new.kept ≡ self.old.at + length self.old.kept }
        ensures few { result ≡ Ok None → self.new.held < 65536 }
    {
        if let Some(fault) = self.fault {
            return Err(StreamFault::Bad {
                at: self.window.place(),
                fault,
            });
        }
        match pass(self.window.kept()) {
            Ok(None) => {
                self.window.release();
                Ok(None)
            }
            Ok(Some((size, canonical))) => Ok(Some(Passed {
                at: self.window.pass(size),
                canonical,
            })),
            Err(fault) => Err(self.stop(fault)),
        }
    }

    /// The byte at which the bytes kept begin.
    pub fn place(&self) -> u64
        ensures { result ≡ self.now.at }
    {
        self.window.place()
    }

    /// How many bytes are kept.
    pub fn left(&self) -> usize
        ensures { result ≡ length self.now.kept }
    {
        self.window.left()
    }

    /// Whether the stream ends here: no bytes are left.
    pub fn finish(&self) -> Result<(), FinishFault>
        requires { reading self.now ≡ Ok None }
        ensures { result ≡ finish_at self.now }
    {
        if self.left() == 0 {
            return Ok(());
        }
        Err(FinishFault::Truncated { at: self.place() })
    }
}
