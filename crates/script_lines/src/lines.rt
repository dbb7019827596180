//! The lines of a report that stand under a command's own.
ghost use Rattle.std.specs.Prelude.{◌≡◌, ◌+◌, ◌≤◌, ◌++◌, codes, decimal, length};
ghost use Rattle.script_lines.specs.Lines.{act_line, act_text, act_word, answer_text, end_text, event_line, event_text, line_at, node_line, peak_line, route_text, sink_line, stream_line, tally_text, via_text, words_text};
ghost use Rattle.script_lines.specs.Names.{cmd_op_text, kind_text, node_kind_text, sample_text, some_text};
ghost use Rattle.script_lines.specs.Page.{◌&◌, HasRoom};

use crate::Page;
use crate::names::{put_cmd_op, put_ctrl_status, put_epid, put_kind, put_node_kind, put_sample};
use block_library::{BlockKind, Line};
use chdr_words::{CmdOp, Control, Epid};
use net_machine::{Event, StreamEnd, Tally};
use rf_script_types::Act;
use script_books::{ActAnswer, FoundNode};

fn put_via(page: &mut Page, place: usize, node: &FoundNode)
    requires { HasRoom page.old 50 }
    ensures text { page.new ≡ page.old ++ via_text place node.now }
    ensures short { length page.new ≤ length page.old + 50 }
{
    if place == 0 {
        page.put(b"-");
    } else {
        page.put_number(node.parent as u64);
        page.put_field(b".", node.parent_port as u64);
    }
}

fn put_instance(page: &mut Page, node: &FoundNode)
    requires { HasRoom page.old 60 }
    ensures text { page.new ≡ page.old ++
        (codes "node " & decimal node.now.instance & codes " " & node_kind_text node.now.kind) }
    ensures short { length page.new ≤ length page.old + 60 }
{
    page.put_field(b"node ", node.instance as u64);
    page.put(b" ");
    put_node_kind(page, node.kind);
}

/// The line of a node that was found at this place of the walk.
pub fn put_node(page: &mut Page, place: usize, node: &FoundNode)
    requires { HasRoom page.old 200 }
    ensures { page.new ≡ page.old ++ node_line place node.now }
{
    put_instance(page, node);
    page.put_pair(b" ports ", node.ports as u64, b" epid ", node.epid.0 as u64);
    page.put(b" via ");
    put_via(page, place, node);
    page.put(b"\n");
}

fn put_command_event(page: &mut Page, stream: u16, op: CmdOp)
    requires { HasRoom page.old 70 }
    ensures text { page.new ≡ page.old ++
        ((codes "Command " & decimal stream) & codes " " & cmd_op_text op) }
    ensures short { length page.new ≤ length page.old + 70 }
{
    page.put_field(b"Command ", stream as u64);
    page.put(b" ");
    put_cmd_op(page, op);
}

fn put_event_text(page: &mut Page, event: Event)
    requires { HasRoom page.old 70 }
    ensures text { page.new ≡ page.old ++ event_text event }
    ensures short { length page.new ≤ length page.old + 70 }
{
    match event {
        Event::Enter(stream) => page.put_field(b"Enter ", stream as u64),
        Event::Hop(queue) => page.put_field(b"Hop ", queue as u64),
        Event::Seen(stream, count) => page.put_pair(b"Seen ", stream as u64, b" ", count),
        Event::Feed(block, input) => page.put_pair(b"Feed ", block as u64, b" ", input as u64),
        Event::Report(stream) => page.put_field(b"Report ", stream as u64),
        Event::Command(stream, op) => put_command_event(page, stream, op),
        Event::Lose(queue) => page.put_field(b"Lose ", queue as u64),
        Event::Reply(node) => page.put_field(b"Reply ", node as u64),
        Event::Ask(node) => page.put_field(b"Ask ", node as u64),
    }
}

/// The line of an event.
pub fn put_event(page: &mut Page, event: Event)
    requires { HasRoom page.old 100 }
    ensures { page.new ≡ page.old ++ event_line event }
{
    page.put(b"ev ");
    put_event_text(page, event);
    page.put(b"\n");
}

fn put_end(page: &mut Page, end: StreamEnd)
    requires { HasRoom page.old 80 }
    ensures text { page.new ≡ page.old ++ end_text end }
    ensures short { length page.new ≤ length page.old + 80 }
{
    match end {
        StreamEnd::Drained => page.put(b"drained"),
        StreamEnd::Broken { expected, got } => page.put_pair(
            b"broken expected ",
            expected as u64,
            b" got ",
            got as u64,
        ),
        StreamEnd::Undrained { sent: _, acked: _ } => page.put(b"undrained"),
    }
}

fn put_route(page: &mut Page, stream: usize, producer: Option<Epid>, consumer: Option<Epid>)
    requires { HasRoom page.old 80 }
    ensures text { page.new ≡ page.old ++ route_text stream producer consumer }
    ensures short { length page.new ≤ length page.old + 80 }
{
    page.put_field(b"stream ", stream as u64);
    page.put(b" ");
    put_epid(page, producer);
    page.put(b">");
    put_epid(page, consumer);
}

fn put_tally(page: &mut Page, tally: Tally)
    requires { HasRoom page.old 120 }
    ensures text { page.new ≡ page.old ++ tally_text tally }
    ensures short { length page.new ≤ length page.old + 120 }
{
    page.put_pair(b" sent ", tally.sent, b" delivered ", tally.delivered);
    page.put_pair(b" acked ", tally.acked, b" epochs ", tally.epochs);
}

/// The line of a stream.
pub fn put_stream(
    page: &mut Page,
    stream: usize,
    producer: Option<Epid>,
    consumer: Option<Epid>,
    end: StreamEnd,
    tally: Tally,
)
    requires { HasRoom page.old 300 }
    ensures { page.new ≡ page.old ++ stream_line stream producer consumer end tally }
{
    put_route(page, stream, producer, consumer);
    put_tally(page, tally);
    page.put(b" ");
    put_end(page, end);
    page.put(b"\n");
}

/// The kind of a block; one that isn't known has no text.
#[tactic(auto, using(crate::proofs::TextLemmas::text_lemmas))]
pub fn put_some_kind(page: &mut Page, kind: Option<BlockKind>)
    requires { HasRoom page.old 10 }
    ensures text { page.new ≡ page.old ++ some_text kind_text kind }
    ensures short { length page.new ≤ length page.old + 10 }
{
    match kind {
        None => {}
        Some(kind) => put_kind(page, kind),
    }
}

fn put_samples(page: &mut Page, line: &Line)
    requires { HasRoom page.old 60 }
    ensures text { page.new ≡ page.old ++ (codes " first " & sample_text line.now.first
        & codes " last " & sample_text line.now.last) }
    ensures short { length page.new ≤ length page.old + 60 }
{
    page.put(b" first ");
    put_sample(page, line.first);
    page.put(b" last ");
    put_sample(page, line.last);
}

/// The line of an rx or sink block.
pub fn put_sink(page: &mut Page, kind: Option<BlockKind>, line: &Line)
    requires { HasRoom page.old 200 }
    ensures { page.new ≡ page.old ++ sink_line kind line.now }
{
    put_some_kind(page, kind);
    page.put_field(b" ", line.block as u64);
    page.put_pair(b" packets ", line.packets, b" samples ", line.samples);
    put_samples(page, line);
    page.put(b"\n");
}

/// The line of a stream's peak.
pub fn put_peak(page: &mut Page, stream: usize, tally: Tally)
    requires { HasRoom page.old 100 }
    ensures { page.new ≡ page.old ++ peak_line stream tally }
{
    page.put_field(b"peak ", stream as u64);
    page.put_pair(b" ", tally.peak_bytes, b" ", tally.peak_packets);
    page.put(b"\n");
}

#[tactic(auto, using(crate::proofs::TextLemmas::text_lemmas))]
fn put_word(page: &mut Page, words: &[u32], place: usize)
    requires { HasRoom page.old 21 }
    ensures text { page.new ≡ page.old ++
        line_at (λ _ word. codes " " & decimal word) words.now place }
    ensures short { length page.new ≤ length page.old + 21 }
{
    match words.get(place) {
        None => {}
        Some(word) => page.put_field(b" ", *word as u64),
    }
}

#[tactic(auto, using(crate::proofs::TextLemmas::text_lemmas))]
fn put_words(page: &mut Page, words: &[u32])
    requires { HasRoom page.old 320 }
    ensures text { page.new ≡ page.old ++ words_text words.now }
    ensures short { length page.new ≤ length page.old + 320 }
{
    for place in 0..words.len().min(15) {
        put_word(page, words, place);
    }
}

/// What an acknowledgement tells.
pub fn put_answer(page: &mut Page, answer: &Control)
    requires { HasRoom page.old 340 }
    ensures text { page.new ≡ page.old ++ answer_text answer.now }
    ensures short { length page.new ≤ length page.old + 340 }
{
    page.put(b"control ");
    put_ctrl_status(page, answer.status);
    put_words(page, answer.words.as_slice());
}

fn put_act_word(page: &mut Page, act: &Act)
    requires { HasRoom page.old 10 }
    ensures text { page.new ≡ page.old ++ act_word act.now }
    ensures short { length page.new ≤ length page.old + 10 }
{
    match act {
        Act::Control { .. } => page.put(b"control"),
        Act::Unload { .. } => page.put(b"unload"),
        Act::Move { .. } => page.put(b"move"),
    }
}

fn put_empty_act(page: &mut Page, act: &Act)
    requires { HasRoom page.old 20 }
    ensures text { page.new ≡ page.old ++ (act_word act.now & codes " none") }
    ensures short { length page.new ≤ length page.old + 20 }
{
    put_act_word(page, act);
    page.put(b" none");
}

fn put_act_text(page: &mut Page, act: &Act, answer: &ActAnswer)
    requires { HasRoom page.old 340 }
    ensures text { page.new ≡ page.old ++ act_text act.now answer.now }
    ensures short { length page.new ≤ length page.old + 340 }
{
    match answer {
        ActAnswer::Answered(answer) => put_answer(page, answer),
        ActAnswer::Lost => page.put(b"lost"),
        ActAnswer::Done => put_act_word(page, act),
        ActAnswer::Empty => put_empty_act(page, act),
    }
}

/// The line of an act of a duplex.
pub fn put_act(page: &mut Page, place: usize, act: &Act, answer: &ActAnswer)
    requires { HasRoom page.old 400 }
    ensures { page.new ≡ page.old ++ act_line place act.now answer.now }
{
    page.put_field(b"act ", place as u64);
    page.put(b" ");
    put_act_text(page, act, answer);
    page.put(b"\n");
}
