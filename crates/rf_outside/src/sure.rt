ghost use Rattle.std.specs.Prelude.{◌≡◌, ℕ, false, [], ◌++◌, ◌||◌, length, min, take, IfOk, IsOk, Option, List, Some};
ghost use Rattle.std.specs.Io.{ReadsAtMost};
ghost use Rattle.std.specs.Io.KnownBytes.{ReadConsumes};
ghost use Rattle.rf_outside.specs.Bytes.{Writes};
ghost use Rattle.rf_outside.specs.Causes.{HasCause};
ghost use Rattle.rf_outside.specs.Played.{is_past, told};

use crate::mem_sink::keep;
use crate::mem_source::give;
use crate::{Failed, Sink, Source};
use rf_base::{Bytes, Memory};
use std::alloc::Global;
use std::marker::Model;

/// A source in memory that never fails.
#[derive(Debug, Drop)]
pub struct SureSource {
    bytes: Bytes,
    at: usize,
}

impl Model for SureSource {
    ghost use Rattle.std.specs.Prelude.{◌≤◌, List, ℕ, length, drop};

    ghost Value = { List ℕ };

    ghost view = { λ s. drop s.at s.bytes };

    ghost invariant = { λ s. s.at ≤ length s.bytes };
}

impl SureSource {
    pub fn new(bytes: Bytes) -> SureSource
        ensures { result ≡ bytes }
    {
        SureSource { bytes, at: 0 }
    }
}

impl Source for SureSource {
    ghost left = { λ s. Some s };

    ghost faults = { λ _. 0 };

    fn read(&mut self, buf: &mut [u8]) -> Result<usize, Failed>
        ensures bound { ReadsAtMost result buf.new }
        ensures bytes { ReadConsumes (Some self.old) (Some self.new) result buf.new }
        ensures cause { HasCause 0 0 result }
        ensures reads { IsOk result }
        ensures moves { IfOk result (λ n. n ≡ min (length buf.old) (length self.old)) }
    {
        let count = buf.len().min(self.bytes.len() - self.at);
        give(self.bytes.as_slice(), self.at, count, buf);
        self.at += count;
        Ok(count)
    }
}

/// A sink in memory that never fails.
///
/// It tells the bytes written as long as they are at most `room`; past that it goes on taking pieces.
#[derive(Debug, Drop)]
pub struct SureSink {
    bytes: Vec<u8>,
    room: usize,
    past: bool,
}

impl Model for SureSink {
    ghost use Rattle.std.specs.Prelude.{◌≤◌, vec_len, vec_capacity};
    ghost use Rattle.rf_outside.specs.Played.{Held};

    ghost Value = { Held };

    ghost view = { λ s. record { bytes = s.bytes.items; room = s.room; past = s.past } };

    ghost invariant = { λ s. (vec_len s.bytes ≤ s.room) × (s.room ≤ vec_capacity s.bytes) };
}

impl SureSink {
    /// Takes the room at once.
    pub fn new(alloc: Global, room: usize) -> Result<SureSink, Memory>
        ensures { IfOk result (λ made. made ≡ record { bytes = []; room = room; past = false }) }
    {
        let bytes = Vec::with_capacity(alloc, room)?;
        Ok(SureSink {
            bytes,
            room,
            past: false,
        })
    }

    /// The first `room` bytes that were written.
    pub fn kept(&self) -> &[u8]
        ensures { result.now ≡ self.now.bytes }
    {
        self.bytes.as_slice()
    }
}

impl Sink for SureSink {
    ghost written = { λ s. told s.bytes s.past };

    ghost faults = { λ _. 0 };

    fn write(&mut self, piece: &[u8]) -> Result<usize, Failed>
        ensures bytes { Writes (told self.old.bytes self.old.past) (told self.new.bytes self.new.past) result piece.now }
        ensures cause { HasCause 0 0 result }
        ensures takes { IfOk result (λ n. n ≡ length piece.now) }
        ensures sure { IsOk result }
        ensures room { self.new.room ≡ self.old.room }
        ensures kept { self.new.bytes ≡ take self.old.room (self.old.bytes ++ piece.now) }
        ensures tells { self.new.past ≡
            (self.old.past || is_past self.old.room self.old.bytes (length piece.now)) }
    {
        self.past = self.past || self.room - self.bytes.len() < piece.len();
        keep(&mut self.bytes, self.room, piece);
        Ok(piece.len())
    }
}
