//! The generated script: two chains of four blocks over one crossbar.
ghost use Rattle.std.specs.Prelude.{◌≡◌, ◌≤◌, IfOk, [], ◌∷◌};
ghost use Rattle.rf_script_types.specs.Fits.{FitsScript};
ghost use Rattle.rf_script.specs.Generated.{one_end, tx, rx, through, join, setting, host, endpoint, link, net, run, generated};

use block_library::BlockKind;
use chdr_words::{Epid, EpidList};
use graph_core::{PortAt, Prop, PropAt, Side};
use net_topology::{LinkPlan, NodePlan};
use rf_base::{Items, Memory};
use rf_script_types::{Script, ScriptCommand};
use std::alloc::Global;
use stream_endpoint::{Flow, Policy};

fn one_end(alloc: Global, epid: u16) -> Result<EpidList, Memory>
    ensures { IfOk result (λ ends. ends ≡ one_end epid) }
{
    Ok(Items::from_vec(Vec::from_array(alloc, [Epid(epid)])?))
}

fn tx(alloc: Global, epid: u16, packets: u32) -> Result<ScriptCommand, Memory>
    ensures { IfOk result (λ made. made ≡ tx epid packets) }
{
    let outs = one_end(alloc, epid)?;
    Ok(ScriptCommand::Block {
        kind: BlockKind::Tx,
        ins: Items::new(alloc),
        outs,
        packets,
        time: None,
    })
}

fn rx(alloc: Global, epid: u16) -> Result<ScriptCommand, Memory>
    ensures { IfOk result (λ made. made ≡ rx epid) }
{
    let ins = one_end(alloc, epid)?;
    Ok(ScriptCommand::Block {
        kind: BlockKind::Rx,
        ins,
        outs: Items::new(alloc),
        packets: 0,
        time: None,
    })
}

/// A block with one input and one output at one endpoint.
fn through(alloc: Global, kind: BlockKind, epid: u16) -> Result<ScriptCommand, Memory>
    ensures { IfOk result (λ made. made ≡ through kind epid) }
{
    let ins = one_end(alloc, epid)?;
    let outs = one_end(alloc, epid)?;
    Ok(ScriptCommand::Block {
        kind,
        ins,
        outs,
        packets: 0,
        time: None,
    })
}

/// A stream with the default flow from port 0 of a block to port 0 of another.
fn join(from: u16, to: u16) -> ScriptCommand
    ensures { result ≡ join from to }
{
    ScriptCommand::Connect {
        from: PortAt {
            block: from,
            port: 0,
        },
        to: PortAt { block: to, port: 0 },
        flow: Flow {
            cap_bytes: 65_536,
            cap_packets: 32,
            freq_bytes: 8192,
            freq_packets: 4,
            max: 8192,
        },
        start: 0,
        policy: Policy::Auto,
    }
}

/// A value at output 0 of a block.
fn setting(block: u16, prop: Prop, value: u64) -> ScriptCommand
    ensures { result ≡ setting block prop value }
{
    ScriptCommand::Set {
        at: PropAt {
            block,
            side: Side::Out,
            port: 0,
            prop,
        },
        value,
    }
}

fn host(epid: u16) -> NodePlan
    ensures { result ≡ host epid }
{
    NodePlan::Host { epid: Epid(epid) }
}

fn endpoint(epid: u16) -> NodePlan
    ensures { result ≡ endpoint epid }
{
    NodePlan::Endpoint {
        epid: Epid(epid),
        bank: None,
    }
}

/// The link from a port of the crossbar to a node.
fn link(port: u8, node: u16) -> LinkPlan
    ensures { result ≡ link port node }
{
    LinkPlan {
        a: 0,
        a_port: port,
        b: node,
        b_port: 0,
    }
}

/// A crossbar of eight ports with a node at each.
fn net(alloc: Global) -> Result<ScriptCommand, Memory>
    ensures { IfOk result (λ made. made ≡ net) }
{
    let nodes = [
        NodePlan::Crossbar { ports: 8 },
        host(1),
        host(2),
        endpoint(3),
        endpoint(4),
        host(5),
        host(6),
        endpoint(7),
        endpoint(8),
    ];
    let links = [
        link(0, 1),
        link(1, 2),
        link(2, 3),
        link(3, 4),
        link(4, 5),
        link(5, 6),
        link(6, 7),
        link(7, 8),
    ];
    Ok(ScriptCommand::Net {
        nodes: Items::from_vec(Vec::from_array(alloc, nodes)?),
        links: Items::from_vec(Vec::from_array(alloc, links)?),
        room: 4,
        routed: true,
        limit: 64,
    })
}

fn run(alloc: Global) -> ScriptCommand
    ensures { result ≡ run }
{
    ScriptCommand::Run {
        seed: 0,
        trace: false,
        peak: false,
        lose: Items::new(alloc),
    }
}

/// The script of two chains, each a tx of n packets, a fifo, a keep that keeps every second sample,
/// and an rx.
///
/// docs/script-language.md has it under "The generated script".
#[tactic(auto, using(crate::proofs::Fitting::generated_fits))]
pub fn gen_script(alloc: Global, n: u32) -> Result<Script, Memory>
    requires some { 1 ≤ n }
    requires few { n ≤ 16384 }
    ensures generated { IfOk result (λ script. script ≡ generated n) }
    ensures fits { IfOk result FitsScript }
{
    let commands = [
        net(alloc)?,
        tx(alloc, 1, n)?,
        through(alloc, BlockKind::Fifo, 3)?,
        through(alloc, BlockKind::Keep(2), 4)?,
        rx(alloc, 2)?,
        tx(alloc, 5, n)?,
        through(alloc, BlockKind::Fifo, 7)?,
        through(alloc, BlockKind::Keep(2), 8)?,
        rx(alloc, 6)?,
        join(0, 1),
        join(1, 2),
        join(2, 3),
        join(4, 5),
        join(5, 6),
        join(6, 7),
        setting(0, Prop::Rate, 2_000_000),
        setting(0, Prop::Item, 4),
        setting(0, Prop::Spp, 364),
        setting(4, Prop::Rate, 2_000_000),
        setting(4, Prop::Item, 4),
        setting(4, Prop::Spp, 364),
        ScriptCommand::Commit,
        run(alloc),
    ];
    Ok(Script {
        version: 1,
        commands: Items::from_vec(Vec::from_array(alloc, commands)?),
    })
}
