//! The line of a command, and the last line.
ghost use Rattle.std.specs.Prelude.{◌≡◌, ◌+◌, ◌≤◌, ◌++◌, codes, decimal, length};
ghost use Rattle.script_books.specs.Commands.{kind_of};
ghost use Rattle.script_lines.specs.CommandLines.{command_line, command_text, done_line, net_text, unload_text};
ghost use Rattle.script_lines.specs.Names.{kind_text, some_text};
ghost use Rattle.script_lines.specs.Page.{◌&◌, HasRoom};
ghost use Rattle.script_lines.specs.RefusalTexts.{refusal_text};

use crate::Page;
use crate::lines::{put_answer, put_some_kind};
use crate::refusal_text::put_refusal;
use rf_script_types::ScriptCommand;
use script_books::{Book, Found, Refusal, acts_of, kind_of, refused, undrained};

#[tactic(auto, using(crate::proofs::TextLemmas::text_lemmas))]
fn put_net(page: &mut Page, command: &ScriptCommand)
    requires { HasRoom page.old 100 }
    ensures text { page.new ≡ page.old ++ net_text command.now }
    ensures short { length page.new ≤ length page.old + 100 }
{
    match command {
        ScriptCommand::Net { nodes, links, .. } => page.put_pair(
            b"net nodes ",
            nodes.len() as u64,
            b" links ",
            links.len() as u64,
        ),
        ScriptCommand::Discover { .. }
        | ScriptCommand::Route { .. }
        | ScriptCommand::Control { .. }
        | ScriptCommand::Unload { .. }
        | ScriptCommand::Block { .. }
        | ScriptCommand::Connect { .. }
        | ScriptCommand::Set { .. }
        | ScriptCommand::Commit
        | ScriptCommand::Run { .. }
        | ScriptCommand::Twin { .. }
        | ScriptCommand::Duplex { .. } => {}
    }
}

#[tactic(auto, using(crate::proofs::TextLemmas::text_lemmas))]
fn put_unload(page: &mut Page, command: &ScriptCommand)
    requires { HasRoom page.old 100 }
    ensures text { page.new ≡ page.old ++ unload_text command.now }
    ensures short { length page.new ≤ length page.old + 100 }
{
    match command {
        ScriptCommand::Unload { port } => page.put_field(b"unload ", *port as u64),
        ScriptCommand::Net { .. }
        | ScriptCommand::Discover { .. }
        | ScriptCommand::Route { .. }
        | ScriptCommand::Control { .. }
        | ScriptCommand::Block { .. }
        | ScriptCommand::Connect { .. }
        | ScriptCommand::Set { .. }
        | ScriptCommand::Commit
        | ScriptCommand::Run { .. }
        | ScriptCommand::Twin { .. }
        | ScriptCommand::Duplex { .. } => {}
    }
}

fn put_found(page: &mut Page, found: &Found)
    requires { HasRoom page.old 100 }
    ensures text { page.new ≡ page.old ++ ((codes "discover nodes " & decimal (length found.now.nodes))
        & codes " bare " & decimal found.now.bare & codes " lost " & decimal (length found.now.lost)) }
    ensures short { length page.new ≤ length page.old + 100 }
{
    page.put_field(b"discover nodes ", found.nodes.len() as u64);
    page.put_pair(
        b" bare ",
        found.bare as u64,
        b" lost ",
        found.lost.len() as u64,
    );
}

fn put_block(page: &mut Page, command: &ScriptCommand, block: u16)
    requires { HasRoom page.old 100 }
    ensures text { page.new ≡ page.old ++
        ((codes "block " & decimal block) & codes " " & some_text kind_text (kind_of command.now)) }
    ensures short { length page.new ≤ length page.old + 100 }
{
    page.put_field(b"block ", block as u64);
    page.put(b" ");
    put_some_kind(page, kind_of(command));
}

fn put_twin(page: &mut Page, streams: usize, first: u32, second: u32)
    requires { HasRoom page.old 100 }
    ensures text { page.new ≡ page.old ++ ((codes "twin streams " & decimal streams)
        & codes " nodes " & decimal first & codes " " & decimal second) }
    ensures short { length page.new ≤ length page.old + 100 }
{
    page.put_field(b"twin streams ", streams as u64);
    page.put_pair(b" nodes ", first as u64, b" ", second as u64);
}

fn put_refused(page: &mut Page, refusal: Refusal)
    requires { HasRoom page.old 120 }
    ensures text { page.new ≡ page.old ++ (codes "refused " & refusal_text refusal) }
    ensures short { length page.new ≤ length page.old + 120 }
{
    page.put(b"refused ");
    put_refusal(page, refusal);
}

/// The line of a command, without its number and its end.
fn put_command_text(page: &mut Page, command: &ScriptCommand, book: &Book)
    requires { HasRoom page.old 350 }
    ensures text { page.new ≡ page.old ++ command_text command.now book.now }
    ensures short { length page.new ≤ length page.old + 350 }
{
    match book {
        Book::Net => put_net(page, command),
        Book::Discover(found) => put_found(page, found),
        Book::Route(nodes) => page.put_field(b"route nodes ", *nodes as u64),
        Book::Control(answer) => put_answer(page, answer),
        Book::Unload => put_unload(page, command),
        Book::Block(block) => put_block(page, command, *block),
        Book::Connect(stream) => page.put_field(b"connect stream ", *stream as u64),
        Book::Set => page.put(b"set"),
        Book::Commit => page.put(b"commit"),
        Book::Run(run) => page.put_field(b"run streams ", run.ends.len() as u64),
        Book::Twin(twin) => put_twin(
            page,
            twin.run.ends.len(),
            twin.first_nodes,
            twin.second_nodes,
        ),
        Book::Duplex(duplex) => page.put_pair(
            b"duplex streams ",
            duplex.run.ends.len() as u64,
            b" acts ",
            acts_of(command).len() as u64,
        ),
        Book::Refused(refusal) => put_refused(page, *refusal),
    }
}

fn put_number(page: &mut Page, number: usize)
    requires { HasRoom page.old 30 }
    ensures text { page.new ≡ page.old ++ (decimal number & codes " ") }
    ensures short { length page.new ≤ length page.old + 30 }
{
    page.put_number(number as u64);
    page.put(b" ");
}

/// The line of a command.
pub fn put_command(page: &mut Page, number: usize, command: &ScriptCommand, book: &Book)
    requires { HasRoom page.old 400 }
    ensures { page.new ≡ page.old ++ command_line number command.now book.now }
{
    put_number(page, number);
    put_command_text(page, command, book);
    page.put(b"\n");
}

/// The last line.
pub fn put_done(page: &mut Page, books: &[Book])
    requires { HasRoom page.old 200 }
    ensures { page.new ≡ page.old ++ done_line books.now }
{
    page.put_field(b"done commands ", books.len() as u64);
    page.put_pair(
        b" refused ",
        refused(books),
        b" undrained ",
        undrained(books),
    );
    page.put(b"\n");
}
