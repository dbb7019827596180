//! The lists of lines that stand under a command's own.
ghost use Rattle.std.specs.Prelude.{◌≡◌};

use crate::list::LineList;
use block_library::Line;
use graph_core::Side;
use net_machine::{Event, StreamEnd, Tally};
use rf_script_types::{Act, ScriptCommand};
use script_books::{ActAnswer, Book, FoundNode, end_at, kind_at};
use script_lines::{Page, put_act, put_event, put_node, put_peak, put_sink, put_stream};

/// The command whose lines are told, by its number, among all commands and books.
#[derive(Clone, Copy)]
pub struct Context<'a> {
    pub commands: &'a [ScriptCommand],
    pub books: &'a [Book],
    pub number: usize,
}

/// The nodes that a walk found.
#[derive(Clone, Copy)]
pub struct Nodes<'a>(pub &'a [FoundNode]);

impl LineList for Nodes<'_> {
    ghost use Rattle.std.specs.Prelude.{length};
    ghost use Rattle.script_lines.specs.Lines.{line_at, node_line};

    ghost line = { λ list. line_at node_line list.0.now };

    ghost lines = { λ list. length list.0.now };

    fn count(&self) -> usize {
        self.0.len()
    }

    #[tactic(auto, using(crate::proofs::EachLemmas::text_lemmas))]
    fn put_line(&self, place: usize, page: &mut Page) {
        match self.0.get(place) {
            None => {}
            Some(node) => put_node(page, place, node),
        }
    }
}

/// The events of a run.
#[derive(Clone, Copy)]
pub struct Trace<'a>(pub &'a [Event]);

impl LineList for Trace<'_> {
    ghost use Rattle.std.specs.Prelude.{length};
    ghost use Rattle.script_lines.specs.Lines.{line_at, event_line};

    ghost line = { λ list. line_at (λ _ event. event_line event) list.0.now };

    ghost lines = { λ list. length list.0.now };

    fn count(&self) -> usize {
        self.0.len()
    }

    #[tactic(auto, using(crate::proofs::EachLemmas::text_lemmas))]
    fn put_line(&self, place: usize, page: &mut Page) {
        match self.0.get(place) {
            None => {}
            Some(event) => put_event(page, *event),
        }
    }
}

/// The streams of a command's run.
#[derive(Clone, Copy)]
pub struct Streams<'a> {
    pub context: Context<'a>,
    pub ends: &'a [StreamEnd],
    pub tallies: &'a [Tally],
}

impl LineList for Streams<'_> {
    ghost use Rattle.std.specs.Prelude.{length};
    ghost use Rattle.script_lines.specs.Lines.{line_at};
    ghost use Rattle.script_report.specs.Report.{stream_at};

    ghost line = { λ list. line_at
        (stream_at list.context.commands.now list.context.books.now list.context.number list.tallies.now) list.ends.now };

    ghost lines = { λ list. length list.ends.now };

    fn count(&self) -> usize {
        self.ends.len()
    }

    #[tactic(auto, using(crate::proofs::EachLemmas::text_lemmas))]
    fn put_line(&self, place: usize, page: &mut Page) {
        let Some(end) = self.ends.get(place) else {
            return;
        };
        let Some(tally) = self.tallies.get(place) else {
            return;
        };
        let Context {
            commands,
            books,
            number,
        } = self.context;
        let producer = end_at(commands, books, number, Side::Out, place);
        let consumer = end_at(commands, books, number, Side::Into, place);
        put_stream(page, place, producer, consumer, *end, *tally)
    }
}

/// The rx and sink blocks of a command's run.
#[derive(Clone, Copy)]
pub struct Sinks<'a> {
    pub context: Context<'a>,
    pub lines: &'a [Line],
}

impl LineList for Sinks<'_> {
    ghost use Rattle.std.specs.Prelude.{length};
    ghost use Rattle.script_lines.specs.Lines.{line_at};
    ghost use Rattle.script_report.specs.Report.{sink_at};

    ghost line = { λ list. line_at
        (λ _ line. sink_at list.context.commands.now list.context.books.now list.context.number line) list.lines.now };

    ghost lines = { λ list. length list.lines.now };

    fn count(&self) -> usize {
        self.lines.len()
    }

    #[tactic(auto, using(crate::proofs::EachLemmas::text_lemmas))]
    fn put_line(&self, place: usize, page: &mut Page) {
        let Some(line) = self.lines.get(place) else {
            return;
        };
        let Context {
            commands,
            books,
            number,
        } = self.context;
        let kind = kind_at(commands, books, number, line.block as usize);
        put_sink(page, kind, line)
    }
}

/// The peaks of a run's streams.
#[derive(Clone, Copy)]
pub struct Peaks<'a>(pub &'a [Tally]);

impl LineList for Peaks<'_> {
    ghost use Rattle.std.specs.Prelude.{length};
    ghost use Rattle.script_lines.specs.Lines.{line_at, peak_line};

    ghost line = { λ list. line_at peak_line list.0.now };

    ghost lines = { λ list. length list.0.now };

    fn count(&self) -> usize {
        self.0.len()
    }

    #[tactic(auto, using(crate::proofs::EachLemmas::text_lemmas))]
    fn put_line(&self, place: usize, page: &mut Page) {
        match self.0.get(place) {
            None => {}
            Some(tally) => put_peak(page, place, *tally),
        }
    }
}

/// The acts of a duplex.
#[derive(Clone, Copy)]
pub struct ActLines<'a> {
    pub acts: &'a [Act],
    pub answers: &'a [ActAnswer],
}

impl LineList for ActLines<'_> {
    ghost use Rattle.std.specs.Prelude.{length};
    ghost use Rattle.script_lines.specs.Lines.{line_at};
    ghost use Rattle.script_report.specs.Report.{act_at};

    ghost line = { λ list. line_at (act_at list.answers.now) list.acts.now };

    ghost lines = { λ list. length list.acts.now };

    fn count(&self) -> usize {
        self.acts.len()
    }

    #[tactic(auto, using(crate::proofs::EachLemmas::text_lemmas))]
    fn put_line(&self, place: usize, page: &mut Page) {
        let Some(act) = self.acts.get(place) else {
            return;
        };
        let Some(answer) = self.answers.get(place) else {
            return;
        };
        put_act(page, place, act, answer)
    }
}
