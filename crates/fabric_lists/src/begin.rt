//! The streams and blocks of a plan, as a run of it begins.
ghost use Rattle.std.specs.Prelude.{◌≡◌, ◌<◌, ◌≤◌, length, map, IfOk, IfSome, is_some};
ghost use Rattle.std.specs.List.{range_with_len};
ghost use Rattle.block_library.specs.Producer.{FitsPlan};
ghost use Rattle.net_machine.specs.Begin.{ready_at_first};
ghost use Rattle.net_machine.specs.CanBegin.{FitsRun};
ghost use Rattle.net_machine.specs.Plans.{plan_at};
ghost use Rattle.fabric_parts.specs.Ready.{ready_first};
ghost use Rattle.fabric_lists.specs.BlocksView.{blocks_of};
ghost use Rattle.fabric_lists.specs.Opened.{feeding_in, is_fed, is_tx_stream, opened_now, txs_in, unfed};
ghost use Rattle.fabric_lists.specs.StreamsView.{streams_of};

use crate::streams::Streams;
use block_library::TxPlan;
use fabric_flags::Flags;
use fabric_parts::{BlockPart, StreamPart};
use net_machine::{BlockPlan, RunPlan};
use plan_lookups::{is_rx, is_tx, producer_of, stream_at};
use rf_base::Memory;
use std::alloc::Global;

/// The streams of a plan as they begin.
pub fn opened_streams(alloc: Global, plan: &RunPlan) -> Result<Streams, Memory>
    requires { FitsRun plan.now }
    ensures plans { IfOk result (λ streams. (streams_of streams.items).plans ≡ plan.now.streams) }
    ensures txs { IfOk result (λ streams. (streams_of streams.items).txs ≡ txs_in plan.now) }
    ensures now { IfOk result (λ streams. (streams_of streams.items).now
        ≡ map (opened_now plan.now) plan.now.streams) }
{
    let parts = opened_parts(alloc, plan)?;
    Streams::new(alloc, parts)
}

/// Each stream of a plan as it begins.
fn opened_parts(alloc: Global, plan: &RunPlan) -> Result<Vec<StreamPart>, Memory>
    requires { FitsRun plan.now }
    ensures plans { IfOk result (λ streams. (streams_of streams.items).plans ≡ plan.now.streams) }
    ensures txs { IfOk result (λ streams. (streams_of streams.items).txs ≡ txs_in plan.now) }
    ensures now { IfOk result (λ streams. (streams_of streams.items).now
        ≡ map (opened_now plan.now) plan.now.streams) }
{
    let mut streams = Vec::with_capacity(alloc, plan.streams.len())?;
    for s in 0..plan.streams.len() {
        streams.push(opened_stream(alloc, plan, s)?)?;
    }
    Ok(streams)
}

/// Stream `s` of a plan as it begins.
fn opened_stream(alloc: Global, plan: &RunPlan, s: usize) -> Result<StreamPart, Memory>
    requires there { s < length plan.now.streams }
    requires fits { FitsRun plan.now }
    ensures plan { IfOk result (λ st. st.plan ≡ plan_at plan.now s) }
    ensures tx { IfOk result (λ st. st.is_tx ≡ is_tx_stream plan.now s) }
    ensures now { IfOk result (λ st. st.now ≡ opened_now plan.now (plan_at plan.now s)) }
{
    let stream = stream_at(plan, s);
    let source = source_of(plan, s);
    StreamPart::new(alloc, &stream, source)
}

/// What a Tx makes for stream `s`; none where another block is its producer.
fn source_of(plan: &RunPlan, s: usize) -> Option<TxPlan>
    requires there { s < length plan.now.streams }
    requires fits { FitsRun plan.now }
    ensures fits { IfSome result FitsPlan }
    ensures tx { is_some result ≡ is_tx_stream plan.now s }
    ensures ready { ready_first result ≡ ready_at_first plan.now (plan_at plan.now s) }
{
    let number = producer_of(plan, s)?;
    let block = &plan.blocks.as_slice()[number];
    if is_tx(block.kind) {
        Some(TxPlan {
            packets: block.packets,
            spp: block.spp,
            item: block.item,
            time: block.time,
            dst: stream_at(plan, s).to,
        })
    } else {
        None
    }
}

/// The blocks of a plan, to which nothing was fed.
pub fn unfed_blocks(alloc: Global, plan: &RunPlan) -> Result<Vec<BlockPart>, Memory>
    requires fits { FitsRun plan.now }
    requires few { length plan.now.blocks ≤ 32 }
    ensures { IfOk result (λ blocks. blocks_of blocks.items
        ≡ map (unfed plan.now) (range_with_len 0 (length plan.now.blocks))) }
{
    let mut blocks = Vec::with_capacity(alloc, plan.blocks.len())?;
    for b in 0..plan.blocks.len() {
        blocks.push(unfed_block(alloc, plan, b)?)?;
    }
    Ok(blocks)
}

/// Block `b` of a plan, to which nothing was fed.
fn unfed_block(alloc: Global, plan: &RunPlan, b: usize) -> Result<BlockPart, Memory>
    requires fits { FitsRun plan.now }
    requires few { length plan.now.blocks ≤ 32 }
    requires there { b < length plan.now.blocks }
    ensures { IfOk result (λ block. block.now ≡ unfed plan.now b) }
{
    let block = &plan.blocks.as_slice()[b];
    BlockPart::new(alloc, b as u16, block.kind, block.item)
}

/// Which blocks of a plan are fed, so that a choice looks at no feed of another.
///
/// The flags stay as they are for a run, and say nothing of what waits at an input: few blocks of a run are fed.
pub fn fed_blocks(alloc: Global, plan: &RunPlan) -> Result<Flags, Memory>
    ensures { IfOk result (λ flags. flags ≡ feeding_in plan.now) }
{
    let mut flags = Flags::new(alloc, plan.blocks.len())?;
    for b in 0..plan.blocks.len() {
        flags.set(b, is_fed(&plan.blocks.as_slice()[b]));
    }
    Ok(flags)
}

/// Whether packets are fed to a block in the network: one with an input that is no Rx.
fn is_fed(block: &BlockPlan) -> bool
    ensures { result ≡ is_fed block.now }
{
    !is_rx(block.kind) && block.ins.len() > 0
}
