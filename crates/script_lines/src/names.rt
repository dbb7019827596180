//! The names of codes in a report.
ghost use Rattle.std.specs.Prelude.{◌≡◌, ◌+◌, ◌≤◌, ◌++◌, length};
ghost use Rattle.rf_script_types.specs.Words.{property_name, side_name};
ghost use Rattle.script_lines.specs.Names.{cmd_op_text, ctrl_status_text, epid_text, kind_text, node_kind_text, sample_text};
ghost use Rattle.script_lines.specs.Page.{HasRoom};

use crate::Page;
use block_library::BlockKind;
use chdr_words::{CmdOp, CtrlStatus, Epid, NodeKind};
use graph_core::{Prop, Side};

pub fn put_cmd_op(page: &mut Page, op: CmdOp)
    requires { HasRoom page.old 30 }
    ensures text { page.new ≡ page.old ++ cmd_op_text op }
    ensures short { length page.new ≤ length page.old + 30 }
{
    match op {
        CmdOp::Init => page.put(b"INIT"),
        CmdOp::Ping => page.put(b"PING"),
        CmdOp::Resync => page.put(b"RESYNC"),
        CmdOp::Other(number) => page.put_field(b"OTHER", number as u64),
    }
}

pub fn put_ctrl_status(page: &mut Page, status: CtrlStatus)
    requires { HasRoom page.old 10 }
    ensures text { page.new ≡ page.old ++ ctrl_status_text status }
    ensures short { length page.new ≤ length page.old + 10 }
{
    match status {
        CtrlStatus::Okay => page.put(b"OKAY"),
        CtrlStatus::CmdErr => page.put(b"CMDERR"),
        CtrlStatus::TsErr => page.put(b"TSERR"),
        CtrlStatus::Warning => page.put(b"WARNING"),
    }
}

pub fn put_node_kind(page: &mut Page, kind: NodeKind)
    requires { HasRoom page.old 30 }
    ensures text { page.new ≡ page.old ++ node_kind_text kind }
    ensures short { length page.new ≤ length page.old + 30 }
{
    match kind {
        NodeKind::Crossbar => page.put(b"crossbar"),
        NodeKind::Endpoint => page.put(b"endpoint"),
        NodeKind::Transport => page.put(b"transport"),
        NodeKind::Other(number) => page.put_field(b"OTHER", number as u64),
    }
}

pub fn put_kind(page: &mut Page, kind: BlockKind)
    requires { HasRoom page.old 10 }
    ensures text { page.new ≡ page.old ++ kind_text kind }
    ensures short { length page.new ≤ length page.old + 10 }
{
    match kind {
        BlockKind::Tx => page.put(b"tx"),
        BlockKind::Rx => page.put(b"rx"),
        BlockKind::Fifo => page.put(b"fifo"),
        BlockKind::Split => page.put(b"split"),
        BlockKind::Keep(_) => page.put(b"keep"),
        BlockKind::Repeat(_) => page.put(b"repeat"),
        BlockKind::Replay(_) => page.put(b"replay"),
        BlockKind::Switch(_) => page.put(b"switch"),
        BlockKind::Sink => page.put(b"sink"),
    }
}

pub fn put_property(page: &mut Page, property: Prop)
    requires { HasRoom page.old 10 }
    ensures text { page.new ≡ page.old ++ property_name property }
    ensures short { length page.new ≤ length page.old + 10 }
{
    match property {
        Prop::Rate => page.put(b"rate"),
        Prop::Item => page.put(b"item"),
        Prop::Spp => page.put(b"spp"),
    }
}

pub fn put_side(page: &mut Page, side: Side)
    requires { HasRoom page.old 10 }
    ensures text { page.new ≡ page.old ++ side_name side }
    ensures short { length page.new ≤ length page.old + 10 }
{
    match side {
        Side::Into => page.put(b"in"),
        Side::Out => page.put(b"out"),
    }
}

/// The EPID of a stream's end; one that isn't known has no text.
#[tactic(auto, using(crate::proofs::TextLemmas::text_lemmas))]
pub fn put_epid(page: &mut Page, epid: Option<Epid>)
    requires { HasRoom page.old 20 }
    ensures text { page.new ≡ page.old ++ epid_text epid }
    ensures short { length page.new ≤ length page.old + 20 }
{
    match epid {
        None => {}
        Some(epid) => page.put_number(epid.0 as u64),
    }
}

pub fn put_sample(page: &mut Page, sample: Option<u64>)
    requires { HasRoom page.old 20 }
    ensures text { page.new ≡ page.old ++ sample_text sample }
    ensures short { length page.new ≤ length page.old + 20 }
{
    match sample {
        None => page.put(b"-"),
        Some(number) => page.put_number(number),
    }
}
