//! The generated script, written or performed.
ghost use Rattle.std.specs.Prelude.{◌≡◌, ◌≤◌, [], IfOk};
ghost use Rattle.rf_outside.specs.Causes.{Rose};
ghost use Rattle.rfnoc_cli.specs.Outcome.{IsGeneratedRun, IsWritten, generated_text};

use block_registers::RegisterSlots;
use rf_base::{Bytes, Memory};
use rf_outside::{Sink, write_all};
use rf_script::{encode_script, gen_script};
use script_books::Books;
use script_runner::perform_script;
use std::alloc::Global;

/// Writes the canonical text of the generated script of `n` packets, and a newline; the status.
pub(crate) fn write_generated<K: Sink>(alloc: Global, out: &mut K, n: u32) -> u8
    requires some { 1 ≤ n }
    requires few { n ≤ 16384 }
    ensures outcome { IsWritten K.written out.old out.new (generated_text n) result }
    ensures write { result ≡ 4 → Rose (K.faults out.old) (K.faults out.new) }
{
    match generated_text(alloc, n) {
        Ok(text) => match write_all(out, text.as_slice()) {
            Ok(()) => 0,
            Err(_) => 4,
        },
        Err(_) => 5,
    }
}

fn generated_text(alloc: Global, n: u32) -> Result<Bytes, Memory>
    requires some { 1 ≤ n }
    requires few { n ≤ 16384 }
    ensures { IfOk result (λ text. text ≡ generated_text n) }
{
    let script = gen_script(alloc, n)?;
    let mut text = encode_script(alloc, &script)?;
    text.push(b'\n')?;
    Ok(text)
}

/// Performs the generated script of `n` packets on one thread, and writes its report; the status.
pub(crate) fn run_generated<K: Sink, B: RegisterSlots>(
    alloc: Global,
    out: &mut K,
    banks: &mut B,
    books: &mut Books,
    n: u32,
) -> u8
    requires some { 1 ≤ n }
    requires few { n ≤ 16384 }
    requires empty { books.old.list ≡ [] }
    ensures outcome { IsGeneratedRun n K.written out.old out.new books.new.list (B.slots banks.old) (B.slots banks.new) result }
    ensures write { result ≡ 4 → Rose (K.faults out.old) (K.faults out.new) }
{
    match gen_script(alloc, n) {
        Ok(script) => perform_script(alloc, &script, out, banks, books),
        Err(_) => 5,
    }
}
