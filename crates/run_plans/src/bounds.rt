ghost use Rattle.std.specs.Prelude.{◌≡◌, ◌↔◌, ◌<◌, IsTrue, IsSome, IfSome, length, min};
ghost use Rattle.net_machine.specs.CanBegin.{HasStreams, bound_through, is_timed, may_tell_time, passed_input, size_from, size_of};
ghost use Rattle.net_machine.specs.Plans.{block_at, block_out, plan_at, producer_of, stream_from, stream_into, stream_to};
ghost use Rattle.std.specs.List.{list_any};
ghost use Rattle.run_plans.specs.Firsts.{EachPlace};
ghost use Rattle.run_plans.specs.RunRefusals.{IsShort, IsSmall};

use crate::kinds::{factor_of, is_among, is_tx, passed_input};
use chdr_words::Epid;
use net_machine::{BlockPlan, RunPlan, StreamPlan};

/// How many packets a stream may have.
const PACKET_LIMIT: u64 = 16384;

/// Whether each port of the block has a stream.
pub(crate) fn has_streams(plan: &RunPlan, block: usize) -> bool
    requires { block < length plan.now.blocks }
    ensures { IsTrue result ↔ HasStreams plan.now block }
{
    let block = block_at(plan, block);
    all_end(plan, block.ins.as_slice()) && all_begin(plan, block.outs.as_slice())
}

/// Whether a stream begins at each of the EPIDs.
fn all_begin(plan: &RunPlan, epids: &[Epid]) -> bool
    ensures { IsTrue result ↔ EachPlace (λ _ epid. IsSome (stream_from plan.now epid)) epids.now }
{
    epids.iter().all(|epid| stream_from(plan, *epid).is_some())
}

/// Whether a stream ends at each of the EPIDs.
fn all_end(plan: &RunPlan, epids: &[Epid]) -> bool
    ensures { IsTrue result ↔ EachPlace (λ _ epid. IsSome (stream_to plan.now epid)) epids.now }
{
    epids.iter().all(|epid| stream_to(plan, *epid).is_some())
}

/// Whether no packet of the stream is too big for its flow.
pub(crate) fn is_small(plan: &RunPlan, s: usize) -> bool
    requires { s < length plan.now.streams }
    ensures { IsTrue result ↔ IsSmall plan.now s }
{
    size_of(plan, s) <= stream_at(plan, s).flow.max as u64
}

/// Whether the stream doesn't have too many packets.
pub(crate) fn is_short(plan: &RunPlan, s: usize) -> bool
    requires { s < length plan.now.streams }
    ensures { IsTrue result ↔ IsShort plan.now s }
{
    bound_through(plan, plan.blocks.len(), s) <= PACKET_LIMIT
}

/// A stream of the plan.
pub(crate) fn stream_at(plan: &RunPlan, s: usize) -> StreamPlan
    requires { s < length plan.now.streams }
    ensures { result ≡ plan_at plan.now s }
{
    plan.streams.as_slice()[s]
}

/// A block of the plan.
fn block_at(plan: &RunPlan, b: usize) -> &BlockPlan
    requires { b < length plan.now.blocks }
    ensures { result.now ≡ block_at plan.now b }
{
    &plan.blocks.as_slice()[b]
}

/// The stream that begins at an EPID.
fn stream_from(plan: &RunPlan, epid: Epid) -> Option<usize>
    ensures value { result ≡ stream_from plan.now epid }
    ensures there { IfSome result (λ s. s < length plan.now.streams) }
{
    plan.streams
        .as_slice()
        .iter()
        .position(|stream| stream.from.0 == epid.0)
}

/// The stream that ends at an EPID.
fn stream_to(plan: &RunPlan, epid: Epid) -> Option<usize>
    ensures value { result ≡ stream_to plan.now epid }
    ensures there { IfSome result (λ s. s < length plan.now.streams) }
{
    plan.streams
        .as_slice()
        .iter()
        .position(|stream| stream.to.0 == epid.0)
}

/// The block with an output at an EPID.
fn block_out(plan: &RunPlan, epid: Epid) -> Option<usize>
    ensures value { result ≡ block_out plan.now epid }
    ensures there { IfSome result (λ b. b < length plan.now.blocks) }
{
    plan.blocks
        .as_slice()
        .iter()
        .position(|block| is_among(epid, block.outs.as_slice()))
}

/// The block that makes a stream's packets.
fn producer_of(plan: &RunPlan, s: usize) -> Option<usize>
    requires { s < length plan.now.streams }
    ensures value { result ≡ producer_of plan.now s }
    ensures there { IfSome result (λ b. b < length plan.now.blocks) }
{
    block_out(plan, stream_at(plan, s).from)
}

/// The stream whose packets the block gives.
fn passed_stream(plan: &RunPlan, block: &BlockPlan) -> Option<usize>
    ensures value { result ≡ stream_into plan.now block.now (passed_input block.now.kind) }
    ensures there { IfSome result (λ s. s < length plan.now.streams) }
{
    let input = passed_input(block.kind);
    let epid = block.ins.as_slice().get(input as usize)?;
    stream_to(plan, *epid)
}

/// How many packets a stream has at most, through up to k blocks; counted to one past the limit.
fn bound_through(plan: &RunPlan, k: usize, s: usize) -> u64
    requires { s < length plan.now.streams }
    ensures { result ≡ min (bound_through k plan.now s) 16385 }
{
    if k == 0 {
        return 0;
    }
    let Some(block) = producer_of(plan, s) else {
        return 0;
    };
    let block = block_at(plan, block);
    if is_tx(block.kind) {
        return (block.packets as u64).min(PACKET_LIMIT + 1);
    }
    let passed = match passed_stream(plan, block) {
        Some(stream) => bound_through(plan, k - 1, stream),
        None => 0,
    };
    (factor_of(block.kind) as u64 * passed).min(PACKET_LIMIT + 1)
}

/// The greatest wire size of a packet of a stream.
fn size_of(plan: &RunPlan, s: usize) -> u64
    requires { s < length plan.now.streams }
    ensures { result ≡ size_of plan.now s }
{
    match producer_of(plan, s) {
        Some(block) => size_from(plan, block_at(plan, block)),
        None => 0,
    }
}

/// The wire size of a packet with all its samples from a block.
fn size_from(plan: &RunPlan, block: &BlockPlan) -> u64
    ensures { result ≡ size_from plan.now block.now }
{
    let time = if may_tell_time(plan, block) { 8 } else { 0 };
    let samples = block.spp as u64 * block.item as u64;
    (8 + time + samples + 7) / 8 * 8
}

/// Whether the packets of a stream from this block may tell times.
fn may_tell_time(plan: &RunPlan, block: &BlockPlan) -> bool
    ensures { result ≡ may_tell_time plan.now block.now }
{
    if is_tx(block.kind) {
        block.time.is_some()
    } else {
        any_timed(plan)
    }
}

/// Whether the block is a Tx whose packets tell times.
fn is_timed(block: &BlockPlan) -> bool
    ensures { result ≡ is_timed block.now }
{
    if is_tx(block.kind) {
        block.time.is_some()
    } else {
        false
    }
}

/// Whether any Tx of the plan has packets that tell times.
fn any_timed(plan: &RunPlan) -> bool
    ensures { result ≡ list_any is_timed plan.now.blocks }
{
    plan.blocks.as_slice().iter().any(is_timed)
}
