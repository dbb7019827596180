//! A script read, performed on one thread, and told.
ghost use Rattle.std.specs.Prelude.{◌≡◌, ◌⊎◌, []};
ghost use Rattle.std.specs.Io.KnownBytes.{IsAtEnd};
ghost use Rattle.rf_outside.specs.Bytes.{Adds, AddsPrefix};
ghost use Rattle.rf_outside.specs.Causes.{Rose};
ghost use Rattle.rf_script_types.specs.Fits.{FitsScript};
ghost use Rattle.script_report.specs.Report.{report_of};
ghost use Rattle.script_runner.specs.FaultLines.{fault_line};
ghost use Rattle.script_runner.specs.Outcome.{IsRunOutcome, told_status};
ghost use Rattle.script_runner.specs.Performed.{IsOneThread, IsOneThreadSoFar};

use crate::fault_text::fault_line;
use crate::script::perform_all;
use block_registers::RegisterSlots;
use rf_base::Items;
use rf_outside::{ReadAllFault, Sink, Source, read_all, write_all};
use rf_script_reader::read_script;
use rf_script_types::{SCRIPT_LIMIT, Script, ScriptFault};
use script_books::{Book, Books, refused, undrained};
use script_report::{ReportFault, write_report};
use std::alloc::Global;

/// Reads a script to its end, performs it on one thread, and writes its report; the books are emptied first. Returns
/// the exit status.
///
/// Rule: docs/scripts-and-reports.md, "Statuses".
pub fn run_script_one<S: Source, K: Sink, B: RegisterSlots>(
    alloc: Global,
    src: &mut S,
    out: &mut K,
    banks: &mut B,
    books: &mut Books,
) -> u8
    ensures read { result ≡ 3 → Rose (S.faults src.old) (S.faults src.new) }
    ensures write { result ≡ 4 → Rose (K.faults out.old) (K.faults out.new) }
    ensures ended { (result ≡ 0) ⊎ (result ≡ 1) → IsAtEnd (S.left src.new) }
    ensures outcome { IsRunOutcome (S.left src.old) K.written out.old out.new books.new.list
        (B.slots banks.old) (B.slots banks.new) result }
{
    books.list = Items::new(alloc);
    let bytes = match read_all(alloc, src, SCRIPT_LIMIT) {
        Ok(bytes) => bytes,
        Err(ReadAllFault::TooLong) => return tell_fault(alloc, out, &ScriptFault::TooLong),
        Err(ReadAllFault::Failed) => return 3,
        Err(ReadAllFault::Memory) => return 5,
    };
    match read_script(alloc, bytes.as_slice()) {
        Ok(script) => perform_script(alloc, &script, out, banks, books),
        Err(fault) => tell_fault(alloc, out, &fault),
    }
}

/// Performs a script on one thread and writes its report. Returns the exit status, which is 0, 1, 4 or 5.
///
/// Rule: docs/scripts-and-reports.md, "Statuses".
pub fn perform_script<K: Sink, B: RegisterSlots>(
    alloc: Global,
    script: &Script,
    out: &mut K,
    banks: &mut B,
    books: &mut Books,
) -> u8
    requires fits { FitsScript script.now }
    requires empty { books.old.list ≡ [] }
    ensures known { (result ≡ 0) ⊎ (result ≡ 1) ⊎ (result ≡ 4) ⊎ (result ≡ 5) }
    ensures performed { (result ≡ 0) ⊎ (result ≡ 1) ⊎ (result ≡ 4) →
        IsOneThread script.now.commands books.new.list (B.slots banks.old) (B.slots banks.new) }
    ensures status { (result ≡ 0) ⊎ (result ≡ 1) → result ≡ told_status books.new.list }
    ensures told { (result ≡ 0) ⊎ (result ≡ 1) →
        Adds (K.written out.old) (K.written out.new) (report_of script.now books.new) }
    ensures torn { result ≡ 4 → AddsPrefix (K.written out.old) (K.written out.new) (report_of script.now books.new) }
    ensures failed { result ≡ 4 → Rose (K.faults out.old) (K.faults out.new) }
    ensures silent { result ≡ 5 → out.new ≡ out.old }
    ensures begun { result ≡ 5 → IsOneThreadSoFar script.now.commands books.new.list }
{
    if perform_all(alloc, script.commands.as_slice(), banks, &mut books.list).is_err() {
        return 5;
    }
    match write_report(alloc, script, books, out) {
        Ok(()) => told_status(books.list.as_slice()),
        Err(ReportFault::Failed) => 4,
        Err(ReportFault::Memory) => 5,
    }
}

/// 1 if a command was refused or a stream isn't drained, else 0.
fn told_status(books: &[Book]) -> u8
    ensures { result ≡ told_status books.now }
{
    if refused(books) == 0 && undrained(books) == 0 {
        0
    } else {
        1
    }
}

/// Writes the line that tells why what was read is no script; the status.
fn tell_fault<K: Sink>(alloc: Global, out: &mut K, fault: &ScriptFault) -> u8
    ensures known { (result ≡ 4) ⊎ (result ≡ 5) ⊎ (result ≡ 6) }
    ensures memory { fault.now ≡ ScriptFault.Memory → result ≡ 5 }
    ensures told { result ≡ 6 → Adds (K.written out.old) (K.written out.new) (fault_line fault.now) }
    ensures torn { result ≡ 4 → AddsPrefix (K.written out.old) (K.written out.new) (fault_line fault.now) }
    ensures failed { result ≡ 4 → Rose (K.faults out.old) (K.faults out.new) }
    ensures silent { result ≡ 5 → out.new ≡ out.old }
{
    if let ScriptFault::Memory = fault {
        return 5;
    }
    match fault_line(alloc, fault) {
        Ok(line) => match write_all(out, line.as_bytes()) {
            Ok(()) => 6,
            Err(_) => 4,
        },
        Err(_) => 5,
    }
}
