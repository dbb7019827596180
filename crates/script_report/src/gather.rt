//! The report as one text.
ghost use Rattle.std.specs.Prelude.{◌≡◌, IfOk};
ghost use Rattle.script_report.specs.Report.{report_of};

use crate::{ReportFault, write_report};
use rf_base::{Bytes, Items, Memory};
use rf_outside::{Failed, Sink};
use rf_script_types::Script;
use script_books::Books;
use std::alloc::Global;

/// A sink that keeps all that is written; a write fails if memory runs out.
#[derive(Debug, Drop)]
struct Gathered {
    bytes: Vec<u8>,
    faults: u64,
}

impl Sink for Gathered {
    ghost use Rattle.std.specs.Prelude.{Some};

    ghost written = { λ sink. Some sink.bytes.items };

    ghost faults = { λ sink. sink.faults };

    fn write(&mut self, piece: &[u8]) -> Result<usize, Failed> {
        match self.bytes.extend_from_slice(piece) {
            Ok(()) => Ok(piece.len()),
            Err(_) => {
                self.faults = self.faults.saturating_add(1);
                Err(Failed)
            }
        }
    }
}

/// The report of a script.
///
/// Rule: docs/report.md.
pub fn report(alloc: Global, script: &Script, books: &Books) -> Result<Bytes, Memory>
    ensures { IfOk result (λ text. text ≡ report_of script.now books.now) }
{
    let mut sink = Gathered {
        bytes: Vec::new(alloc),
        faults: 0,
    };
    match write_report(alloc, script, books, &mut sink) {
        Ok(()) => {
            let Gathered { bytes, faults: _ } = sink;
            Ok(Items::from_vec(bytes))
        }
        Err(ReportFault::Failed | ReportFault::Memory) => Err(Memory),
    }
}
