ghost use Rattle.std.specs.Prelude.{ℕ, List, Option};
ghost use Rattle.rf_outside.specs.Bytes.{Writes};
ghost use Rattle.rf_outside.specs.Causes.{HasCause};

use crate::Failed;

/// Bytes that go out.
pub trait Sink {
    /// The bytes written, where the sink tells them.
    ghost written: { Self → Option (List ℕ) };

    /// How often a write failed; it stands still at 2^64 - 1.
    ghost faults: { Self → ℕ };

    /// Takes a first part of the piece, and says how many bytes.
    fn write(&mut self, piece: &[u8]) -> Result<usize, Failed>
        ensures bytes { Writes (written self.old) (written self.new) result piece.now }
        ensures cause { HasCause (faults self.old) (faults self.new) result };
}
