ghost use Rattle.std.specs.Prelude.{◌≡◌, ◌↔◌, ◌≤◌, ◌<◌, ℕ, false, [], ◌++◌, length, take, Contains, IfOk, OnOk, OnErr, ◌||◌, vec_len, vec_capacity, Option, List, IsErr};
ghost use Rattle.rf_outside.specs.Bytes.{Writes};
ghost use Rattle.rf_outside.specs.Causes.{CountsFaults, HasCause};
ghost use Rattle.rf_outside.specs.Played.{is_past, moved_by, risen, told};

use crate::mem_source::moved;
use crate::{CountList, Failed, Sink};
use rf_base::Memory;
use std::alloc::Global;
use std::marker::Model;

/// A sink in memory that cuts its writes, and fails some of them, by lists.
///
/// It tells the bytes written as long as they are at most `room`; past that it goes on taking pieces.
#[derive(Debug, Drop)]
pub struct MemSink {
    bytes: Vec<u8>,
    room: usize,
    past: bool,
    cuts: CountList,
    fails: CountList,
    calls: u64,
    faults: u64,
}

impl Model for MemSink {
    ghost use Rattle.std.specs.Prelude.{◌≤◌, vec_len, vec_capacity};
    ghost use Rattle.rf_outside.specs.Played.{SinkSeen};

    ghost Value = { SinkSeen };

    ghost view = { λ s. record {
      bytes = s.bytes.items;
      room = s.room;
      past = s.past;
      cuts = s.cuts;
      fails = s.fails;
      calls = s.calls;
      faults = s.faults;
    } };

    ghost invariant = { λ s. (vec_len s.bytes ≤ s.room) × (s.room ≤ vec_capacity s.bytes) };
}

impl MemSink {
    /// Takes the room at once. Call number k, counted from 0, fails where k is in `fails`; else it takes
    /// the piece, but no more than `cuts[k]` bytes, where a cut of 0 is 1.
    pub fn new(
        alloc: Global,
        cuts: CountList,
        fails: CountList,
        room: usize,
    ) -> Result<MemSink, Memory>
        ensures { IfOk result (λ made. made ≡
            record { bytes = []; room = room; past = false; cuts = cuts; fails = fails; calls = 0; faults = 0 }) }
    {
        let bytes = Vec::with_capacity(alloc, room)?;
        Ok(MemSink {
            bytes,
            room,
            past: false,
            cuts,
            fails,
            calls: 0,
            faults: 0,
        })
    }

    /// The first `room` bytes that were written.
    pub fn kept(&self) -> &[u8]
        ensures { result.now ≡ self.now.bytes }
    {
        self.bytes.as_slice()
    }
}

impl Sink for MemSink {
    ghost written = { λ s. told s.bytes s.past };

    ghost faults = { λ s. s.faults };

    fn write(&mut self, piece: &[u8]) -> Result<usize, Failed>
        ensures bytes { Writes (told self.old.bytes self.old.past) (told self.new.bytes self.new.past) result piece.now }
        ensures cause { HasCause self.old.faults self.new.faults result }
        ensures fails { IsErr result ↔ Contains self.old.fails self.old.calls }
        ensures moves { IfOk result (λ n. n ≡ moved_by self.old.cuts self.old.calls (length piece.now)) }
        ensures counts { self.new.calls ≡ risen self.old.calls }
        ensures faults { CountsFaults self.old.faults self.new.faults result }
        ensures lists { (self.new.cuts ≡ self.old.cuts) × (self.new.fails ≡ self.old.fails) }
        ensures room { self.new.room ≡ self.old.room }
        ensures kept { IfOk result (λ n. self.new.bytes ≡ take self.old.room (self.old.bytes ++ take n piece.now)) }
        ensures refused { OnErr result (self.new.bytes ≡ self.old.bytes) }
        ensures tells { IfOk result (λ n. self.new.past ≡
            (self.old.past || is_past self.old.room self.old.bytes n)) }
    {
        let call = self.calls;
        self.calls = call.saturating_add(1);
        if self.fails.as_slice().contains(&call) {
            self.faults = self.faults.saturating_add(1);
            return Err(Failed);
        }
        let count = moved(&self.cuts, call, piece.len());
        self.past = self.past || self.room - self.bytes.len() < count;
        keep(&mut self.bytes, self.room, &piece[..count]);
        Ok(count)
    }
}

/// Keeps the bytes of the piece as far as there is room.
pub(crate) fn keep(bytes: &mut Vec<u8>, room: usize, piece: &[u8])
    requires within { vec_len bytes.old ≤ room }
    requires taken { room ≤ vec_capacity bytes.old }
    ensures kept { bytes.new.items ≡ take room (bytes.old.items ++ piece.now) }
    ensures within { vec_len bytes.new ≤ room }
    ensures taken { room ≤ vec_capacity bytes.new }
{
    let fitting = piece.len().min(room - bytes.len());
    if bytes.extend_from_slice(&piece[..fitting]).is_err() {
        unreachable!();
    }
}
