ghost use Rattle.std.specs.Prelude.{◌≡◌, ◌+◌, ◌<◌, ◌≤◌, ◌^◌, [], drop, vec_len, length, OnOk, OnErr};
ghost use Rattle.chdr_stream.specs.Window.{passed, released, with_piece};

use rf_base::{Bytes, Memory};
use std::alloc::Global;
use std::marker::Model;

/// The bytes of a stream that were fed and aren't passed yet, and the place of the first.
///
/// It keeps one vector and an index in it: bytes that were passed take memory until `release`,
/// which moves those behind them to the front. The bytes fed in all are below 2^64.
#[derive(Debug, Drop)]
pub struct Window {
    bytes: Vec<u8>,
    start: usize,
    place: u64,
}

impl Model for Window {
    ghost use Rattle.std.specs.Prelude.{◌+◌, ◌-◌, ◌<◌, ◌≤◌, ◌^◌, drop, vec_len};
    ghost use Rattle.chdr_stream.specs.Window.{View};

    ghost Value = { View };

    ghost view = { λ w. record {
      at = w.place;
      kept = drop w.start w.bytes.items;
      held = vec_len w.bytes;
    } };

    ghost invariant = { λ w. (w.start ≤ vec_len w.bytes)
        × (w.place + (vec_len w.bytes - w.start) < 2 ^ 64) };
}

/// Moves the bytes behind the first ones to the front, in the memory that they have.
fn let_go(bytes: &mut Vec<u8>, count: usize)
    requires { count ≤ vec_len bytes.old }
    ensures { bytes.new.items ≡ drop count bytes.old.items }
{
    if count == 0 {
        return;
    }
    let left = bytes.len() - count;
    bytes.copy_within(count.., 0);
    bytes.truncate(left);
}

impl Window {
    pub fn new(alloc: Global) -> Window
        ensures { result ≡ record { at = 0; kept = []; held = 0 } }
    {
        Window {
            bytes: Vec::new(alloc),
            start: 0,
            place: 0,
        }
    }

    /// A window over bytes that are all there; it takes no memory.
    pub fn over(bytes: Bytes) -> Window
        requires { length bytes < 2 ^ 64 }
        ensures { result ≡ record { at = 0; kept = bytes; held = length bytes } }
    {
        Window {
            bytes: bytes.into_vec(),
            start: 0,
            place: 0,
        }
    }

    /// Appends the piece.
    pub fn feed(&mut self, piece: &[u8]) -> Result<(), Memory>
        requires { self.old.at + length self.old.kept + length piece.now < 2 ^ 64 }
        ensures ok { OnOk result (self.new ≡ with_piece self.old piece.now) }
        ensures err { OnErr result (self.new ≡ self.old) }
    {
        self.bytes.extend_from_slice(piece)?;
        Ok(())
    }

    /// The bytes kept.
    pub fn kept(&self) -> &[u8]
        ensures { result.now ≡ self.now.kept }
    {
        &self.bytes[self.start..]
    }

    /// Passes the first bytes, and returns their place.
    pub fn pass(&mut self, count: usize) -> u64
        requires { count ≤ length self.old.kept }
        ensures place { result ≡ self.old.at }
        ensures moves { self.new ≡ passed self.old count }
    {
        let place = self.place;
        self.start += count;
        self.place += count as u64;
        place
    }

    /// Lets go of the bytes that were passed.
    pub fn release(&mut self)
        ensures { self.new ≡ released self.old }
    {
        let_go(&mut self.bytes, self.start);
        self.start = 0;
    }

    /// The place of the first byte kept.
    pub fn place(&self) -> u64
        ensures { result ≡ self.now.at }
    {
        self.place
    }

    /// How many bytes are kept.
    pub fn left(&self) -> usize
        ensures { result ≡ length self.now.kept }
    {
        self.bytes.len() - self.start
    }

    /// The allocator that it was made with.
    pub fn allocator(&self) -> Global {
        *self.bytes.allocator()
    }
}
