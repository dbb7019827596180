ghost use Rattle.std.specs.Prelude.{◌≡◌, ◌↔◌, ◌+◌, ◌≤◌, ◌++◌, ℕ, length, take, drop, min, Contains, IfOk, Option, List, Some, IsErr};
ghost use Rattle.std.specs.Io.{ReadsAtMost};
ghost use Rattle.std.specs.Io.KnownBytes.{ReadConsumes};
ghost use Rattle.rf_outside.specs.Causes.{CountsFaults, HasCause};
ghost use Rattle.rf_outside.specs.Played.{moved_by, risen};

use crate::{Failed, Source};
use rf_base::{Bytes, CountList};
use std::marker::Model;

/// A source in memory that cuts its reads, and fails some of them, by lists.
#[derive(Debug, Drop)]
pub struct MemSource {
    bytes: Bytes,
    at: usize,
    cuts: CountList,
    fails: CountList,
    calls: u64,
    faults: u64,
}

impl Model for MemSource {
    ghost use Rattle.std.specs.Prelude.{◌≤◌, length, drop};
    ghost use Rattle.rf_outside.specs.Played.{Played};

    ghost Value = { Played };

    ghost view = { λ s. record { left = drop s.at s.bytes; cuts = s.cuts; fails = s.fails; calls = s.calls; faults = s.faults } };

    ghost invariant = { λ s. s.at ≤ length s.bytes };
}

impl MemSource {
    /// Call number k, counted from 0 over all calls, fails where k is in `fails`. Else it gives as many
    /// bytes as the buffer and what is left allow, but no more than `cuts[k]`, where a cut of 0 is 1.
    pub fn new(bytes: Bytes, cuts: CountList, fails: CountList) -> MemSource
        ensures { result ≡ record { left = bytes; cuts = cuts; fails = fails; calls = 0; faults = 0 } }
    {
        MemSource {
            bytes,
            at: 0,
            cuts,
            fails,
            calls: 0,
            faults: 0,
        }
    }
}

impl Source for MemSource {
    ghost left = { λ s. Some s.left };

    ghost faults = { λ s. s.faults };

    fn read(&mut self, buf: &mut [u8]) -> Result<usize, Failed>
        ensures bound { ReadsAtMost result buf.new }
        ensures bytes { ReadConsumes (Some self.old.left) (Some self.new.left) result buf.new }
        ensures cause { HasCause self.old.faults self.new.faults result }
        ensures fails { IsErr result ↔ Contains self.old.fails self.old.calls }
        ensures moves { IfOk result (λ n. n ≡
            moved_by self.old.cuts self.old.calls (min (length buf.old) (length self.old.left))) }
        ensures counts { self.new.calls ≡ risen self.old.calls }
        ensures faults { CountsFaults self.old.faults self.new.faults result }
        ensures lists { (self.new.cuts ≡ self.old.cuts) × (self.new.fails ≡ self.old.fails) }
    {
        let call = self.calls;
        self.calls = call.saturating_add(1);
        if self.fails.as_slice().contains(&call) {
            self.faults = self.faults.saturating_add(1);
            return Err(Failed);
        }
        let left = self.bytes.len() - self.at;
        let count = moved(&self.cuts, call, buf.len().min(left));
        give(self.bytes.as_slice(), self.at, count, buf);
        self.at += count;
        Ok(count)
    }
}

/// How many of `most` bytes this call moves.
pub(crate) fn moved(cuts: &CountList, call: u64, most: usize) -> usize
    ensures { result ≡ moved_by cuts.now call most }
{
    match usize::try_from(call) {
        Ok(place) => match cuts.as_slice().get(place) {
            Some(cut) => (most as u64).min((*cut).max(1)) as usize,
            None => most,
        },
        Err(_) => most,
    }
}

/// Puts the bytes from `at` on at the front of the buffer.
pub(crate) fn give(bytes: &[u8], at: usize, count: usize, buf: &mut [u8])
    requires there { at + count ≤ length bytes.now }
    requires room { count ≤ length buf.old }
    ensures { drop at bytes.now ≡ take count buf.new ++ drop (at + count) bytes.now }
{
    buf[..count].copy_from_slice(&bytes[at..at + count]);
}
