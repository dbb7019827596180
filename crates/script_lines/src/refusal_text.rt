//! The text of a refusal.
ghost use Rattle.std.specs.Prelude.{◌≡◌, ◌+◌, ◌≤◌, ◌++◌, codes, decimal, length};
ghost use Rattle.rf_script_types.specs.Words.{side_name};
ghost use Rattle.script_lines.specs.Page.{◌&◌, HasRoom};
ghost use Rattle.script_lines.specs.RefusalTexts.{clash_text, refusal_text, rule_text, unsettled_text};

use crate::Page;
use crate::names::{put_property, put_side};
use graph_core::{Prop, PropAt, Rule, Side};
use script_books::Refusal;

fn put_rule(page: &mut Page, rule: Rule)
    requires { HasRoom page.old 30 }
    ensures text { page.new ≡ page.old ++ rule_text rule }
    ensures short { length page.new ≤ length page.old + 30 }
{
    match rule {
        Rule::Edge(number) => page.put_field(b"edge ", number as u64),
        Rule::Block(number) => page.put_field(b"block ", number as u64),
    }
}

fn put_clash(page: &mut Page, by: Rule, property: Prop, held: u64, derived: u64)
    requires { HasRoom page.old 100 }
    ensures text { page.new ≡ page.old ++ clash_text by property held derived }
    ensures short { length page.new ≤ length page.old + 100 }
{
    page.put(b"Clash ");
    put_rule(page, by);
    page.put(b" ");
    put_property(page, property);
    page.put_pair(b" ", held.min(derived), b" ", held.max(derived));
}

fn put_side_of(page: &mut Page, block: u16, side: Side)
    requires { HasRoom page.old 60 }
    ensures text { page.new ≡ page.old ++
        ((codes "Unsettled block " & decimal block) & codes " " & side_name side) }
    ensures short { length page.new ≤ length page.old + 60 }
{
    page.put_field(b"Unsettled block ", block as u64);
    page.put(b" ");
    put_side(page, side);
}

fn put_unsettled(page: &mut Page, at: PropAt)
    requires { HasRoom page.old 100 }
    ensures text { page.new ≡ page.old ++ unsettled_text at }
    ensures short { length page.new ≤ length page.old + 100 }
{
    put_side_of(page, at.block, at.side);
    page.put_field(b" ", at.port as u64);
    page.put(b" ");
    put_property(page, at.prop);
}

/// Why a command was refused.
pub fn put_refusal(page: &mut Page, refusal: Refusal)
    requires { HasRoom page.old 100 }
    ensures text { page.new ≡ page.old ++ refusal_text refusal }
    ensures short { length page.new ≤ length page.old + 100 }
{
    match refusal {
        Refusal::TooManyNodes { count } => page.put_field(b"TooManyNodes ", count as u64),
        Refusal::DuplicateEpid { epid } => page.put_field(b"DuplicateEpid ", epid.0 as u64),
        Refusal::NetBadPort { link } => page.put_field(b"BadPort ", link as u64),
        Refusal::PortTwice { link } => page.put_field(b"PortTwice ", link as u64),
        Refusal::NetCycle { link } => page.put_field(b"Cycle ", link as u64),
        Refusal::Apart { node } => page.put_field(b"Apart ", node as u64),
        Refusal::BadLinkRoom { room } => page.put_field(b"BadLinkRoom ", room as u64),
        Refusal::NoNet => page.put(b"NoNet"),
        Refusal::NoHost { epid } => page.put_field(b"NoHost ", epid.0 as u64),
        Refusal::NoRoute { epid } => page.put_field(b"NoRoute ", epid.0 as u64),
        Refusal::NoAck => page.put(b"NoAck"),
        Refusal::Unknown { epid } => page.put_field(b"Unknown ", epid.0 as u64),
        Refusal::Lost { instance } => page.put_field(b"Lost ", instance as u64),
        Refusal::NotLoaded { port } => page.put_field(b"NotLoaded ", port as u64),
        Refusal::TooManyBlocks => page.put(b"TooManyBlocks"),
        Refusal::NoEndpoint { epid } => page.put_field(b"NoEndpoint ", epid.0 as u64),
        Refusal::EndpointTaken { epid } => page.put_field(b"EndpointTaken ", epid.0 as u64),
        Refusal::TooManyStreams => page.put(b"TooManyStreams"),
        Refusal::BadPort => page.put(b"BadPort"),
        Refusal::PortTaken => page.put(b"PortTaken"),
        Refusal::Cycle => page.put(b"Cycle"),
        Refusal::Loop { epid } => page.put_field(b"Loop ", epid.0 as u64),
        Refusal::NoProperty => page.put(b"NoProperty"),
        Refusal::Clash {
            by,
            prop,
            held,
            derived,
        } => put_clash(page, by, prop, held, derived),
        Refusal::NotWhole { block, value } => page.put_pair(
            b"NotWhole block ",
            block as u64,
            b" ",
            value,
        ),
        Refusal::Unsettled { at } => put_unsettled(page, at),
        Refusal::NotCommitted => page.put(b"NotCommitted"),
        Refusal::OpenPort { block } => page.put_field(b"OpenPort ", block as u64),
        Refusal::Unrouted { stream } => page.put_field(b"Unrouted ", stream as u64),
        Refusal::TooBig { stream } => page.put_field(b"TooBig ", stream as u64),
        Refusal::TooMuch { stream } => page.put_field(b"TooMuch ", stream as u64),
        Refusal::BadCut { link } => page.put_field(b"BadCut ", link as u64),
        Refusal::TwinKind { block } => page.put_field(b"TwinKind ", block as u64),
        Refusal::NoStream { stream } => page.put_field(b"NoStream ", stream as u64),
        Refusal::NotBuilt => page.put(b"NotBuilt"),
    }
}
