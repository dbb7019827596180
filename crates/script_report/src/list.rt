//! Lines on their way to a sink, over a page.
ghost use Rattle.std.specs.Prelude.{◌≡◌, ◌++◌, [], ℕ, List, OnOk, OnErr};
ghost use Rattle.rf_outside.specs.Causes.{HasCause};
ghost use Rattle.script_lines.specs.Lines.{each};
ghost use Rattle.script_lines.specs.Page.{HasRoom, line_size};
ghost use Rattle.script_report.specs.Prints.{Printed, PrintedPart};

use rf_outside::{Failed, Sink, write_all};
use script_lines::{LINE, Page};

/// Lines that are told by their places.
pub trait LineList {
    /// The line of a place.
    ghost line: { Self → ℕ → List ℕ };

    /// How many places there are.
    ghost lines: { Self → ℕ };

    fn count(&self) -> usize
        ensures { result ≡ lines self.now };

    fn put_line(&self, place: usize, page: &mut Page)
        requires { HasRoom page.old line_size }
        ensures { page.new ≡ page.old ++ line self.now place };
}

/// Writes the page and empties it.
#[tactic(auto, using(crate::proofs::PrintLemmas::print_lemmas))]
pub fn flush<K: Sink>(out: &mut K, page: &mut Page) -> Result<(), Failed>
    ensures whole { OnOk result
        (Printed (K.written out.old) (K.written out.new) page.old page.new []) }
    ensures empty { OnOk result (page.new ≡ []) }
    ensures prefix { OnErr result
        (PrintedPart (K.written out.old) (K.written out.new) page.old []) }
    ensures cause { HasCause (K.faults out.old) (K.faults out.new) result }
{
    write_all(out, page.as_bytes())?;
    page.clear();
    Ok(())
}

/// Makes room for a line.
#[tactic(auto, using(crate::proofs::PrintLemmas::print_lemmas))]
pub fn make_room<K: Sink>(out: &mut K, page: &mut Page) -> Result<(), Failed>
    ensures room { OnOk result (HasRoom page.new line_size) }
    ensures whole { OnOk result
        (Printed (K.written out.old) (K.written out.new) page.old page.new []) }
    ensures prefix { OnErr result
        (PrintedPart (K.written out.old) (K.written out.new) page.old []) }
    ensures cause { HasCause (K.faults out.old) (K.faults out.new) result }
{
    if page.has_room(LINE) {
        return Ok(());
    }
    flush(out, page)
}

/// Writes the lines, but for what is left on the page.
pub fn write_lines<K: Sink, L: LineList>(
    out: &mut K,
    page: &mut Page,
    list: &L,
) -> Result<(), Failed>
    ensures whole { OnOk result (Printed (K.written out.old) (K.written out.new)
        page.old page.new (each (L.line list.now) (L.lines list.now))) }
    ensures prefix { OnErr result (PrintedPart (K.written out.old) (K.written out.new)
        page.old (each (L.line list.now) (L.lines list.now))) }
    ensures cause { HasCause (K.faults out.old) (K.faults out.new) result }
{
    for place in 0..list.count() {
        make_room(out, page)?;
        list.put_line(place, page);
    }
    Ok(())
}
