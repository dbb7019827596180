//! The commands.
ghost use Rattle.std.specs.Prelude.{◌≡◌, IfOk, OnOk};
ghost use Rattle.rf_script_types.specs.CommandText.{do_text, net_text, discover_text, route_text, control_head, control_text, unload_text, kind_word, kind_number, with_ends, with_optional, packet_count, block_text, with_flow, connect_text, set_text, commit_text, run_text, twin_text, duplex_text};
ghost use Rattle.rf_script_writer.specs.Object.{members};
ghost use Rattle.serde_json.specs.View.{view};

use crate::list::{Written, list_value, pair_value};
use crate::object::Object;
use block_library::BlockKind;
use chdr_words::{CtrlOp, Epid, EpidList, Words15};
use graph_core::{PortAt, PropAt};
use net_faults::Faults;
use net_topology::{LinkList, NodeList};
use rf_base::Memory;
use rf_script_types::{
    Acts, Field, KindWord, ScriptCommand, Verb, op_name, policy_name, property_name, side_name,
};
use serde_json::Value;
use std::alloc::Global;
use stream_endpoint::{Flow, Policy};

/// A command with its field `do`.
fn begin(alloc: Global, verb: Verb) -> Result<Object, Memory>
    ensures { IfOk result (λ made. members made ≡ do_text verb) }
{
    let mut command = Object::new(alloc);
    command.word(alloc, Field::Do, verb.name())?;
    Ok(command)
}

fn net(
    alloc: Global,
    nodes: &NodeList,
    links: &LinkList,
    room: u32,
    routed: bool,
) -> Result<Value, Memory>
    ensures { IfOk result (λ v. view v ≡ net_text nodes.now links.now room routed) }
{
    let mut command = begin(alloc, Verb::Net)?;
    let nodes = list_value(alloc, nodes.as_slice())?;
    command.put(alloc, Field::Nodes, nodes)?;
    let links = list_value(alloc, links.as_slice())?;
    command.put(alloc, Field::Links, links)?;
    command.number(alloc, Field::Room, room as u64)?;
    command.flag(alloc, Field::Routed, routed)?;
    Ok(command.into_value())
}

fn discover(alloc: Global, host: Epid, lose: &Faults) -> Result<Value, Memory>
    ensures { IfOk result (λ v. view v ≡ discover_text host lose.now) }
{
    let mut command = begin(alloc, Verb::Discover)?;
    command.number(alloc, Field::Host, host.0 as u64)?;
    let lose = list_value(alloc, lose.as_slice())?;
    command.put(alloc, Field::Lose, lose)?;
    Ok(command.into_value())
}

fn route(alloc: Global, host: Epid, from: Epid, to: Epid, lose: &Faults) -> Result<Value, Memory>
    ensures { IfOk result (λ v. view v ≡ route_text host from to lose.now) }
{
    let mut command = begin(alloc, Verb::Route)?;
    command.number(alloc, Field::Host, host.0 as u64)?;
    command.number(alloc, Field::From, from.0 as u64)?;
    command.number(alloc, Field::To, to.0 as u64)?;
    let lose = list_value(alloc, lose.as_slice())?;
    command.put(alloc, Field::Lose, lose)?;
    Ok(command.into_value())
}

/// The fields of a control command before its words.
fn control_head(
    alloc: Global,
    host: Epid,
    to: Epid,
    port: u16,
    op: CtrlOp,
    addr: u32,
) -> Result<Object, Memory>
    ensures { IfOk result (λ made. members made ≡ control_head host to port op addr) }
{
    let mut command = begin(alloc, Verb::Control)?;
    command.number(alloc, Field::Host, host.0 as u64)?;
    command.number(alloc, Field::To, to.0 as u64)?;
    command.number(alloc, Field::Port, port as u64)?;
    command.word(alloc, Field::Op, op_name(op))?;
    command.number(alloc, Field::Addr, addr as u64)?;
    Ok(command)
}

fn control_tail(
    alloc: Global,
    head: Object,
    words: &Words15,
    enables: u8,
    lose: &Faults,
) -> Result<Value, Memory>
    ensures { IfOk result (λ v. view v ≡ control_text (members head) words.now enables lose.now) }
{
    let mut command = head;
    let words = list_value(alloc, words.as_slice())?;
    command.put(alloc, Field::Words, words)?;
    command.number(alloc, Field::Enables, enables as u64)?;
    let lose = list_value(alloc, lose.as_slice())?;
    command.put(alloc, Field::Lose, lose)?;
    Ok(command.into_value())
}

fn unload(alloc: Global, port: u16) -> Result<Value, Memory>
    ensures { IfOk result (λ v. view v ≡ unload_text port) }
{
    let mut command = begin(alloc, Verb::Unload)?;
    command.number(alloc, Field::Port, port as u64)?;
    Ok(command.into_value())
}

fn kind_word(kind: BlockKind) -> KindWord
    ensures { result ≡ kind_word kind }
{
    match kind {
        BlockKind::Tx => KindWord::Tx,
        BlockKind::Rx => KindWord::Rx,
        BlockKind::Fifo => KindWord::Fifo,
        BlockKind::Split => KindWord::Split,
        BlockKind::Keep(_) => KindWord::Keep,
        BlockKind::Repeat(_) => KindWord::Repeat,
        BlockKind::Replay(_) => KindWord::Replay,
        BlockKind::Switch(_) => KindWord::Switch,
        BlockKind::Sink => KindWord::Sink,
    }
}

/// The number of a kind that has one.
fn kind_number(kind: BlockKind) -> Option<u16>
    ensures { result ≡ kind_number kind }
{
    match kind {
        BlockKind::Keep(n) | BlockKind::Repeat(n) | BlockKind::Replay(n) | BlockKind::Switch(n) =>
            Some(n),
        BlockKind::Tx | BlockKind::Rx | BlockKind::Fifo | BlockKind::Split | BlockKind::Sink =>
            None,
    }
}

/// Writes the ends of a side that has any.
fn put_ends(alloc: Global, block: &mut Object, field: Field, ends: &EpidList) -> Result<(), Memory>
    ensures { OnOk result (members block.new ≡ with_ends field ends.now (members block.old)) }
{
    if !ends.is_empty() {
        let list = list_value(alloc, ends.as_slice())?;
        block.put(alloc, field, list)?;
    }
    Ok(())
}

/// Writes a number that may be left out.
fn put_optional(
    alloc: Global,
    block: &mut Object,
    field: Field,
    number: Option<u64>,
) -> Result<(), Memory>
    ensures { OnOk result (members block.new ≡ with_optional field number (members block.old)) }
{
    if let Some(n) = number {
        block.number(alloc, field, n)?;
    }
    Ok(())
}

/// The count of packets of a tx.
fn packet_count(kind: BlockKind, packets: u32) -> Option<u64>
    ensures { result ≡ packet_count kind packets }
{
    match kind {
        BlockKind::Tx => Some(packets as u64),
        BlockKind::Rx | BlockKind::Fifo | BlockKind::Split | BlockKind::Sink => None,
        BlockKind::Keep(_) | BlockKind::Repeat(_) | BlockKind::Replay(_) | BlockKind::Switch(_) =>
            None,
    }
}

fn wide(number: Option<u16>) -> Option<u64>
    ensures { result ≡ number }
{
    match number {
        Some(n) => Some(n as u64),
        None => None,
    }
}

fn block(
    alloc: Global,
    kind: BlockKind,
    ins: &EpidList,
    outs: &EpidList,
    packets: u32,
    time: Option<u64>,
) -> Result<Value, Memory>
    ensures { IfOk result (λ v. view v ≡ block_text kind ins.now outs.now packets time) }
{
    let mut command = begin(alloc, Verb::Block)?;
    command.word(alloc, Field::Kind, kind_word(kind).name())?;
    put_optional(alloc, &mut command, Field::Count, wide(kind_number(kind)))?;
    put_ends(alloc, &mut command, Field::Ins, ins)?;
    put_ends(alloc, &mut command, Field::Outs, outs)?;
    put_optional(
        alloc,
        &mut command,
        Field::Packets,
        packet_count(kind, packets),
    )?;
    put_optional(alloc, &mut command, Field::Time, time)?;
    Ok(command.into_value())
}

fn connect(
    alloc: Global,
    from: PortAt,
    to: PortAt,
    flow: &Flow,
    start: u64,
    policy: Policy,
) -> Result<Value, Memory>
    ensures { IfOk result (λ v. view v ≡ connect_text from to flow.now start policy) }
{
    let mut command = begin(alloc, Verb::Connect)?;
    let from = pair_value(alloc, from.block as u64, from.port as u64)?;
    command.put(alloc, Field::From, from)?;
    let to = pair_value(alloc, to.block as u64, to.port as u64)?;
    command.put(alloc, Field::To, to)?;
    put_flow(alloc, &mut command, flow)?;
    command.number(alloc, Field::Start, start)?;
    command.word(alloc, Field::Policy, policy_name(policy))?;
    Ok(command.into_value())
}

fn put_flow(alloc: Global, connect: &mut Object, flow: &Flow) -> Result<(), Memory>
    ensures { OnOk result (members connect.new ≡ with_flow flow.now (members connect.old)) }
{
    let cap = pair_value(alloc, flow.cap_bytes, flow.cap_packets as u64)?;
    connect.put(alloc, Field::Cap, cap)?;
    let freq = pair_value(alloc, flow.freq_bytes, flow.freq_packets as u64)?;
    connect.put(alloc, Field::Freq, freq)?;
    connect.number(alloc, Field::Max, flow.max as u64)
}

fn set(alloc: Global, at: PropAt, value: u64) -> Result<Value, Memory>
    ensures { IfOk result (λ v. view v ≡ set_text at value) }
{
    let mut command = begin(alloc, Verb::Set)?;
    command.number(alloc, Field::Block, at.block as u64)?;
    command.word(alloc, Field::Side, side_name(at.side))?;
    command.number(alloc, Field::Port, at.port as u64)?;
    command.word(alloc, Field::Property, property_name(at.prop))?;
    command.number(alloc, Field::Value, value)?;
    Ok(command.into_value())
}

fn commit(alloc: Global) -> Result<Value, Memory>
    ensures { IfOk result (λ v. view v ≡ commit_text) }
{
    let command = begin(alloc, Verb::Commit)?;
    Ok(command.into_value())
}

fn run(alloc: Global, seed: u64, trace: bool, peak: bool, lose: &Faults) -> Result<Value, Memory>
    ensures { IfOk result (λ v. view v ≡ run_text seed trace peak lose.now) }
{
    let mut command = begin(alloc, Verb::Run)?;
    command.number(alloc, Field::Seed, seed)?;
    command.flag(alloc, Field::Trace, trace)?;
    command.flag(alloc, Field::Peak, peak)?;
    let lose = list_value(alloc, lose.as_slice())?;
    command.put(alloc, Field::Lose, lose)?;
    Ok(command.into_value())
}

fn twin(alloc: Global, cut: u16, peak: bool, lose: &Faults) -> Result<Value, Memory>
    ensures { IfOk result (λ v. view v ≡ twin_text cut peak lose.now) }
{
    let mut command = begin(alloc, Verb::Twin)?;
    command.number(alloc, Field::Cut, cut as u64)?;
    command.flag(alloc, Field::Peak, peak)?;
    let lose = list_value(alloc, lose.as_slice())?;
    command.put(alloc, Field::Lose, lose)?;
    Ok(command.into_value())
}

fn duplex(
    alloc: Global,
    host: Epid,
    acts: &Acts,
    seed: u64,
    peak: bool,
    lose: &Faults,
) -> Result<Value, Memory>
    ensures { IfOk result (λ v. view v ≡ duplex_text host acts.now seed peak lose.now) }
{
    let mut command = begin(alloc, Verb::Duplex)?;
    command.number(alloc, Field::Host, host.0 as u64)?;
    let acts = list_value(alloc, acts.as_slice())?;
    command.put(alloc, Field::Acts, acts)?;
    command.number(alloc, Field::Seed, seed)?;
    command.flag(alloc, Field::Peak, peak)?;
    let lose = list_value(alloc, lose.as_slice())?;
    command.put(alloc, Field::Lose, lose)?;
    Ok(command.into_value())
}

impl Written for ScriptCommand {
    ghost use Rattle.rf_script_types.specs.CommandText.{command_text};

    ghost written = { command_text };

    fn value(&self, alloc: Global) -> Result<Value, Memory> {
        match self {
            ScriptCommand::Net {
                nodes,
                links,
                room,
                routed,
                limit: _,
            } => net(alloc, nodes, links, *room, *routed),
            ScriptCommand::Discover { host, lose } => discover(alloc, *host, lose),
            ScriptCommand::Route {
                host,
                from,
                to,
                lose,
            } => route(alloc, *host, *from, *to, lose),
            ScriptCommand::Control {
                host,
                to,
                port,
                op,
                addr,
                words,
                enables,
                lose,
            } => {
                let head = control_head(alloc, *host, *to, *port, *op, *addr)?;
                control_tail(alloc, head, words, *enables, lose)
            }
            ScriptCommand::Unload { port } => unload(alloc, *port),
            ScriptCommand::Block {
                kind,
                ins,
                outs,
                packets,
                time,
            } => block(alloc, *kind, ins, outs, *packets, *time),
            ScriptCommand::Connect {
                from,
                to,
                flow,
                start,
                policy,
            } => connect(alloc, *from, *to, flow, *start, *policy),
            ScriptCommand::Set { at, value } => set(alloc, *at, *value),
            ScriptCommand::Commit => commit(alloc),
            ScriptCommand::Run {
                seed,
                trace,
                peak,
                lose,
            } => run(alloc, *seed, *trace, *peak, lose),
            ScriptCommand::Twin { cut, peak, lose } => twin(alloc, *cut, *peak, lose),
            ScriptCommand::Duplex {
                host,
                acts,
                seed,
                peak,
                lose,
            } => duplex(alloc, *host, acts, *seed, *peak, lose),
        }
    }
}
