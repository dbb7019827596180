ghost use Rattle.std.specs.Prelude.{◌≡◌, ◌↔◌, ◌⊎◌, [], true, IfSome, None};
ghost use Rattle.std.specs.Io.KnownBytes.{IsAtEnd};
ghost use Rattle.rf_outside.specs.Causes.{Rose};
ghost use Rattle.rfnoc_cli.specs.Words.{form_of_words};
ghost use Rattle.rfnoc_cli.specs.Outcome.{IsOutcome, IsStatus, reads_nothing};

use crate::Books;
use crate::generate::{run_generated, write_generated};
use crate::words::{Form, form_of_words};
use block_registers::RegisterSlots;
use capture_tool::{check_capture, show_capture, show_pcap};
use rf_base::Items;
use rf_outside::{Sink, Source};
use script_runner::run_script_one;
use std::alloc::Global;

/// All that the program does: it performs a script on one thread and writes the report, lists or checks a capture,
/// lists a pcap file, or writes or performs the generated script. The books are emptied first. Returns the exit status.
///
/// Rule: docs/scripts-and-reports.md, "Statuses".
pub fn rfnoc<S: Source, K: Sink, B: RegisterSlots>(
    alloc: Global,
    words: &[String],
    src: &mut S,
    out: &mut K,
    banks: &mut B,
    books: &mut Books,
) -> u8
    ensures usage { (result ≡ 2) ↔ (form_of_words words.now ≡ None) }
    ensures untouched { result ≡ 2 → (out.new ≡ out.old) × (books.new.list ≡ []) × (B.slots banks.new ≡ B.slots banks.old) }
    ensures unread { reads_nothing (form_of_words words.now) ≡ true → src.new ≡ src.old }
    ensures read { result ≡ 3 → Rose (S.faults src.old) (S.faults src.new) }
    ensures write { result ≡ 4 → Rose (K.faults out.old) (K.faults out.new) }
    ensures outcome { IsOutcome (form_of_words words.now) (S.left src.old)
        K.written out.old out.new books.new.list (B.slots banks.old) (B.slots banks.new) result }
    ensures complete { (Rose (S.faults src.old) (S.faults src.new) → ⊥) →
        (Rose (K.faults out.old) (K.faults out.new) → ⊥) →
        IfSome (S.left src.old) (λ bytes.
        (result ≡ 5) ⊎ IsStatus (form_of_words words.now) bytes books.new.list result) }
{
    books.list = Items::new(alloc);
    match form_of_words(words) {
        Some(Form::RunOne) => run_script_one(alloc, src, out, banks, books),
        Some(Form::Show) => show_capture(alloc, src, out),
        Some(Form::Check) => check_capture(alloc, src, out),
        Some(Form::Pcap(port)) => show_pcap(alloc, src, out, port),
        Some(Form::Gen(n)) => write_generated(alloc, out, n),
        Some(Form::GenRun(n)) => run_generated(alloc, out, banks, books, n),
        None => 2,
    }
}
