ghost use Rattle.std.specs.Prelude.{◌≡◌, ℕ, None, Option, List};
ghost use Rattle.std.specs.Io.{ReadsAtMost};
ghost use Rattle.std.specs.Io.KnownBytes.{ReadConsumes, WriteAppends};
ghost use Rattle.rf_outside.specs.Bytes.{Writes};
ghost use Rattle.rf_outside.specs.Causes.{CountsFaults, HasCause};

use crate::{Failed, Sink, Source};
use std::io::{Read, Write};

/// The adapter over a reader of std; each of its errors is a fault.
#[derive(Debug, Drop)]
pub struct StdSource<R> {
    inner: R,
    faults: u64,
}

impl<R: Read> StdSource<R> {
    pub fn new(inner: R) -> StdSource<R>
        ensures { result ≡ record { inner = inner; faults = 0 } }
    {
        StdSource { inner, faults: 0 }
    }
}

impl<R: Read> Source for StdSource<R> {
    ghost left = { λ s. R.remaining s.inner };

    ghost faults = { λ s. s.faults };

    fn read(&mut self, buf: &mut [u8]) -> Result<usize, Failed>
        ensures bound { ReadsAtMost result buf.new }
        ensures bytes { ReadConsumes (R.remaining self.old.inner) (R.remaining self.new.inner)
            result buf.new }
        ensures cause { HasCause self.old.faults self.new.faults result }
        ensures faults { CountsFaults self.old.faults self.new.faults result }
    {
        match self.inner.read(buf) {
            Ok(count) => Ok(count),
            Err(_) => {
                self.faults = self.faults.saturating_add(1);
                Err(Failed)
            }
        }
    }
}

/// The adapter over a writer of std; an error, and a piece of which nothing is taken, are faults.
///
/// It tells no bytes; where the writer does, it holds what the sink took.
#[derive(Debug, Drop)]
pub struct StdSink<W> {
    inner: W,
    faults: u64,
}

impl<W: Write> StdSink<W> {
    pub fn new(inner: W) -> StdSink<W>
        ensures { result ≡ record { inner = inner; faults = 0 } }
    {
        StdSink { inner, faults: 0 }
    }
}

#[tactic(auto, using(crate::proofs::Moved::appends_none))]
impl<W: Write> Sink for StdSink<W> {
    ghost written = { λ _. None };

    ghost faults = { λ s. s.faults };

    fn write(&mut self, piece: &[u8]) -> Result<usize, Failed>
        ensures bytes { Writes None None result piece.now }
        ensures cause { HasCause self.old.faults self.new.faults result }
        ensures faults { CountsFaults self.old.faults self.new.faults result }
        ensures contents { WriteAppends (W.contents self.old.inner) (W.contents self.new.inner)
            result piece.now }
    {
        match self.inner.write(piece) {
            Ok(count) if count > 0 || piece.is_empty() => Ok(count),
            Ok(_) | Err(_) => {
                self.faults = self.faults.saturating_add(1);
                Err(Failed)
            }
        }
    }
}
