ghost use Rattle.std.specs.Prelude.{◌≡◌, ◌<◌, ◌≤◌, ℕ, List, length, IfOk, OnOk, OnErr, IsErrOf};
ghost use Rattle.std.specs.Io.KnownBytes.{Consumes, IsAtEnd};
ghost use Rattle.rf_outside.specs.Bytes.{Adds, AddsPrefix};
ghost use Rattle.rf_outside.specs.Causes.{HasCause, Rose};

use crate::{Failed, ReadAllFault, Sink, Source};
use rf_base::{Bytes, Items};
use std::alloc::Global;

/// All bytes of the source, up to its end.
#[tactic(auto, using(crate::proofs::Moved::consumes_keeps))]
pub fn read_all<S: Source>(alloc: Global, src: &mut S, limit: usize) -> Result<Bytes, ReadAllFault>
    ensures whole { IfOk result (λ bytes. Consumes (S.left src.old) (S.left src.new) bytes) }
    ensures ended { OnOk result (IsAtEnd (S.left src.new)) }
    ensures within { IfOk result (λ bytes. length bytes ≤ limit) }
    ensures too_long { IsErrOf result ReadAllFault.TooLong →
        ((bytes : List ℕ) × Consumes (S.left src.old) (S.left src.new) bytes × (limit < length bytes)) }
    ensures failed { IsErrOf result ReadAllFault.Failed → Rose (S.faults src.old) (S.faults src.new) }
    ensures before { IsErrOf result ReadAllFault.Failed →
        ((bytes : List ℕ) × Consumes (S.left src.old) (S.left src.new) bytes × (length bytes ≤ limit)) }
    ensures later { S.faults src.old ≤ S.faults src.new }
{
    let mut bytes = Vec::new(alloc);
    let mut piece = [0u8; 4096];
    while bytes.len() <= limit {
        let count = src.read(&mut piece).map_err(|_| ReadAllFault::Failed)?;
        if count == 0 {
            return Ok(Items::from_vec(bytes));
        }
        bytes
            .extend_from_slice(&piece[..count])
            .map_err(|_| ReadAllFault::Memory)?;
    }
    Err(ReadAllFault::TooLong)
}

/// Writes all bytes, in order.
pub fn write_all<K: Sink>(out: &mut K, bytes: &[u8]) -> Result<(), Failed>
    ensures whole { OnOk result (Adds (K.written out.old) (K.written out.new) bytes.now) }
    ensures prefix { OnErr result (AddsPrefix (K.written out.old) (K.written out.new) bytes.now) }
    ensures cause { HasCause (K.faults out.old) (K.faults out.new) result }
{
    let mut rest = bytes;
    while !rest.is_empty() {
        let count = out.write(rest)?;
        rest = &rest[count..];
    }
    Ok(())
}
