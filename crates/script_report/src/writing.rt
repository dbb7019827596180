//! The report of a script: what its books tell, line by line.
ghost use Rattle.std.specs.Prelude.{◌≡◌, ◌≤◌, [], Err, OnOk, OnErr};
ghost use Rattle.rf_outside.specs.Bytes.{Adds, AddsPrefix};
ghost use Rattle.rf_outside.specs.Causes.{HasCause, Rose};
ghost use Rattle.script_lines.specs.CommandLines.{done_line};
ghost use Rattle.script_lines.specs.Lines.{line_at, numbered};
ghost use Rattle.script_report.specs.Prints.{Printed, PrintedPart};
ghost use Rattle.script_report.specs.Report.{acts_text, book_lines, books_text, duplex_lines, events_text, lines_of, lines_under, peaks_text, report_of, run_lines, sinks_text, streams_text, told};

use crate::list::{flush, make_room, write_lines};
use crate::lists::{ActLines, Context, Nodes, Peaks, Sinks, Streams, Trace};
use rf_base::Memory;
use rf_outside::{Failed, Sink};
use rf_script_types::{Script, ScriptCommand};
use script_books::{Book, Books, DuplexBook, RunBook, acts_of, is_peaked, is_traced};
use script_lines::{Page, put_command, put_done};
use std::alloc::Global;
use thiserror::Error;

/// Why a report wasn't written to its end.
#[derive(Clone, Copy, Debug, PartialEq, Eq, Error)]
pub enum ReportFault {
    #[error("a write failed")]
    Failed,
    /// Nothing was written.
    #[error("out of memory")]
    Memory,
}

/// The list, if it is told.
fn told<T>(is_told: bool, list: &[T]) -> &[T]
    ensures { result.now ≡ told is_told list.now }
{
    if is_told { list } else { &[] }
}

/// The events of a run, if they are told.
fn write_events<K: Sink>(
    out: &mut K,
    page: &mut Page,
    command: &ScriptCommand,
    run: &RunBook,
) -> Result<(), Failed>
    ensures whole { OnOk result (Printed (K.written out.old) (K.written out.new) page.old page.new
        (events_text command.now run.now)) }
    ensures prefix { OnErr result (PrintedPart (K.written out.old) (K.written out.new) page.old
        (events_text command.now run.now)) }
    ensures cause { HasCause (K.faults out.old) (K.faults out.new) result }
{
    let events = told(is_traced(command), run.journal.as_slice());
    write_lines(out, page, &Trace(events))
}

/// The streams of a run.
fn write_streams<K: Sink>(
    out: &mut K,
    page: &mut Page,
    context: Context<'_>,
    run: &RunBook,
) -> Result<(), Failed>
    ensures whole { OnOk result (Printed (K.written out.old) (K.written out.new) page.old page.new
        (streams_text context.entry.commands.now context.entry.books.now context.entry.number run.now)) }
    ensures prefix { OnErr result (PrintedPart (K.written out.old) (K.written out.new) page.old
        (streams_text context.entry.commands.now context.entry.books.now context.entry.number run.now)) }
    ensures cause { HasCause (K.faults out.old) (K.faults out.new) result }
{
    let ends = run.ends.as_slice();
    let tallies = run.tallies.as_slice();
    write_lines(
        out,
        page,
        &Streams {
            context,
            ends,
            tallies,
        },
    )
}

/// The rx and sink blocks of a run.
fn write_sinks<K: Sink>(
    out: &mut K,
    page: &mut Page,
    context: Context<'_>,
    run: &RunBook,
) -> Result<(), Failed>
    ensures whole { OnOk result (Printed (K.written out.old) (K.written out.new) page.old page.new
        (sinks_text context.entry.commands.now context.entry.books.now context.entry.number run.now)) }
    ensures prefix { OnErr result (PrintedPart (K.written out.old) (K.written out.new) page.old
        (sinks_text context.entry.commands.now context.entry.books.now context.entry.number run.now)) }
    ensures cause { HasCause (K.faults out.old) (K.faults out.new) result }
{
    let lines = run.lines.as_slice();
    write_lines(out, page, &Sinks { context, lines })
}

/// The peaks of a run's streams, if they are told.
fn write_peaks<K: Sink>(
    out: &mut K,
    page: &mut Page,
    command: &ScriptCommand,
    run: &RunBook,
) -> Result<(), Failed>
    ensures whole { OnOk result (Printed (K.written out.old) (K.written out.new) page.old page.new
        (peaks_text command.now run.now)) }
    ensures prefix { OnErr result (PrintedPart (K.written out.old) (K.written out.new) page.old
        (peaks_text command.now run.now)) }
    ensures cause { HasCause (K.faults out.old) (K.faults out.new) result }
{
    let tallies = told(is_peaked(command), run.tallies.as_slice());
    write_lines(out, page, &Peaks(tallies))
}

/// The lines of a run.
fn write_run<K: Sink>(
    out: &mut K,
    page: &mut Page,
    context: Context<'_>,
    command: &ScriptCommand,
    run: &RunBook,
) -> Result<(), Failed>
    ensures whole { OnOk result (Printed (K.written out.old) (K.written out.new) page.old page.new
        (run_lines context.entry.commands.now context.entry.books.now context.entry.number command.now run.now)) }
    ensures prefix { OnErr result (PrintedPart (K.written out.old) (K.written out.new) page.old
        (run_lines context.entry.commands.now context.entry.books.now context.entry.number command.now run.now)) }
    ensures cause { HasCause (K.faults out.old) (K.faults out.new) result }
{
    write_events(out, page, command, run)?;
    write_streams(out, page, context, run)?;
    write_sinks(out, page, context, run)?;
    write_peaks(out, page, command, run)
}

/// The acts of a duplex.
fn write_acts<K: Sink>(
    out: &mut K,
    page: &mut Page,
    command: &ScriptCommand,
    duplex: &DuplexBook,
) -> Result<(), Failed>
    ensures whole { OnOk result (Printed (K.written out.old) (K.written out.new) page.old page.new
        (acts_text command.now duplex.now)) }
    ensures prefix { OnErr result (PrintedPart (K.written out.old) (K.written out.new) page.old
        (acts_text command.now duplex.now)) }
    ensures cause { HasCause (K.faults out.old) (K.faults out.new) result }
{
    let acts = acts_of(command);
    let answers = duplex.answers.as_slice();
    write_lines(out, page, &ActLines { acts, answers })
}

/// The lines of a duplex.
fn write_duplex<K: Sink>(
    out: &mut K,
    page: &mut Page,
    context: Context<'_>,
    command: &ScriptCommand,
    duplex: &DuplexBook,
) -> Result<(), Failed>
    ensures whole { OnOk result (Printed (K.written out.old) (K.written out.new) page.old page.new
        (duplex_lines context.entry.commands.now context.entry.books.now context.entry.number command.now duplex.now)) }
    ensures prefix { OnErr result (PrintedPart (K.written out.old) (K.written out.new) page.old
        (duplex_lines context.entry.commands.now context.entry.books.now context.entry.number command.now duplex.now)) }
    ensures cause { HasCause (K.faults out.old) (K.faults out.new) result }
{
    write_run(out, page, context, command, &duplex.run)?;
    write_acts(out, page, command, duplex)
}

/// The lines under a command's own.
#[tactic(auto, using(crate::proofs::PrintLemmas::print_lemmas))]
fn write_under<K: Sink>(
    out: &mut K,
    page: &mut Page,
    context: Context<'_>,
    command: &ScriptCommand,
    book: &Book,
) -> Result<(), Failed>
    ensures whole { OnOk result (Printed (K.written out.old) (K.written out.new) page.old page.new
        (lines_under context.entry.commands.now context.entry.books.now context.entry.number command.now book.now)) }
    ensures prefix { OnErr result (PrintedPart (K.written out.old) (K.written out.new) page.old
        (lines_under context.entry.commands.now context.entry.books.now context.entry.number command.now book.now)) }
    ensures cause { HasCause (K.faults out.old) (K.faults out.new) result }
{
    match book {
        Book::Discover(found) => write_lines(out, page, &Nodes(found.nodes.as_slice())),
        Book::Run(run) => write_run(out, page, context, command, run),
        Book::Twin(twin) => write_run(out, page, context, command, &twin.run),
        Book::Duplex(duplex) => write_duplex(out, page, context, command, duplex),
        Book::Net
        | Book::Route(_)
        | Book::Control(_)
        | Book::Unload
        | Book::Block(_)
        | Book::Connect(_)
        | Book::Set
        | Book::Commit
        | Book::Refused(_) => Ok(()),
    }
}

/// The line of a command, and the lines under it.
fn write_command<K: Sink>(
    out: &mut K,
    page: &mut Page,
    context: Context<'_>,
    command: &ScriptCommand,
    book: &Book,
) -> Result<(), Failed>
    ensures whole { OnOk result (Printed (K.written out.old) (K.written out.new) page.old page.new
        (lines_of context.entry.commands.now context.entry.books.now context.entry.number command.now book.now)) }
    ensures prefix { OnErr result (PrintedPart (K.written out.old) (K.written out.new) page.old
        (lines_of context.entry.commands.now context.entry.books.now context.entry.number command.now book.now)) }
    ensures cause { HasCause (K.faults out.old) (K.faults out.new) result }
{
    make_room(out, page)?;
    put_command(page, context.number, command, book);
    write_under(out, page, context, command, book)
}

/// The lines of the book at a place.
#[tactic(auto, using(crate::proofs::PrintLemmas::print_lemmas))]
fn write_book<K: Sink>(
    out: &mut K,
    page: &mut Page,
    commands: &[ScriptCommand],
    books: &[Book],
    number: usize,
) -> Result<(), Failed>
    ensures whole { OnOk result (Printed (K.written out.old) (K.written out.new) page.old page.new
        (line_at (book_lines commands.now books.now) books.now number)) }
    ensures prefix { OnErr result (PrintedPart (K.written out.old) (K.written out.new) page.old
        (line_at (book_lines commands.now books.now) books.now number)) }
    ensures cause { HasCause (K.faults out.old) (K.faults out.new) result }
{
    let Some(book) = books.get(number) else {
        return Ok(());
    };
    let Some(command) = commands.get(number) else {
        return Ok(());
    };
    let context = Context {
        commands,
        books,
        number,
    };
    write_command(out, page, context, command, book)
}

/// The lines of all books.
fn write_books<K: Sink>(
    out: &mut K,
    page: &mut Page,
    commands: &[ScriptCommand],
    books: &[Book],
) -> Result<(), Failed>
    ensures whole { OnOk result (Printed (K.written out.old) (K.written out.new) page.old page.new
        (numbered (book_lines commands.now books.now) books.now)) }
    ensures prefix { OnErr result (PrintedPart (K.written out.old) (K.written out.new) page.old
        (numbered (book_lines commands.now books.now) books.now)) }
    ensures cause { HasCause (K.faults out.old) (K.faults out.new) result }
{
    for number in 0..books.len() {
        write_book(out, page, commands, books, number)?;
    }
    Ok(())
}

/// The last line, and all that is on the page.
fn write_done<K: Sink>(out: &mut K, page: &mut Page, books: &[Book]) -> Result<(), Failed>
    ensures whole { OnOk result (Printed (K.written out.old) (K.written out.new) page.old page.new
        (done_line books.now)) }
    ensures empty { OnOk result (page.new ≡ []) }
    ensures prefix { OnErr result (PrintedPart (K.written out.old) (K.written out.new) page.old
        (done_line books.now)) }
    ensures cause { HasCause (K.faults out.old) (K.faults out.new) result }
{
    make_room(out, page)?;
    put_done(page, books);
    flush(out, page)
}

/// The report, over a page.
fn write_all_books<K: Sink>(
    out: &mut K,
    page: &mut Page,
    commands: &[ScriptCommand],
    books: &[Book],
) -> Result<(), Failed>
    ensures whole { OnOk result (Printed (K.written out.old) (K.written out.new) page.old page.new
        (books_text commands.now books.now)) }
    ensures empty { OnOk result (page.new ≡ []) }
    ensures prefix { OnErr result (PrintedPart (K.written out.old) (K.written out.new) page.old
        (books_text commands.now books.now)) }
    ensures cause { HasCause (K.faults out.old) (K.faults out.new) result }
{
    write_books(out, page, commands, books)?;
    write_done(out, page, books)
}

/// The report, over an empty page.
fn write_over<K: Sink>(
    out: &mut K,
    page: &mut Page,
    commands: &[ScriptCommand],
    books: &[Book],
) -> Result<(), Failed>
    requires { page.old ≡ [] }
    ensures whole { OnOk result
        (Adds (K.written out.old) (K.written out.new) (books_text commands.now books.now)) }
    ensures prefix { OnErr result
        (AddsPrefix (K.written out.old) (K.written out.new) (books_text commands.now books.now)) }
    ensures cause { HasCause (K.faults out.old) (K.faults out.new) result }
{
    write_all_books(out, page, commands, books)
}

/// Writes the report of a script, piece by piece as it is made.
///
/// All memory is taken before the first write. Rule: docs/report.md.
pub fn write_report<K: Sink>(
    alloc: Global,
    script: &Script,
    books: &Books,
    out: &mut K,
) -> Result<(), ReportFault>
    ensures whole { OnOk result
        (Adds (K.written out.old) (K.written out.new) (report_of script.now books.now)) }
    ensures prefix { result ≡ Err ReportFault.Failed →
        AddsPrefix (K.written out.old) (K.written out.new) (report_of script.now books.now) }
    ensures memory { result ≡ Err ReportFault.Memory → out.new ≡ out.old }
    ensures cause { result ≡ Err ReportFault.Failed → Rose (K.faults out.old) (K.faults out.new) }
    ensures later { K.faults out.old ≤ K.faults out.new }
{
    let mut page = match Page::new(alloc) {
        Ok(page) => page,
        Err(Memory) => return Err(ReportFault::Memory),
    };
    let commands = script.commands.as_slice();
    match write_over(out, &mut page, commands, books.list.as_slice()) {
        Ok(()) => Ok(()),
        Err(Failed) => Err(ReportFault::Failed),
    }
}
