ghost use Rattle.std.specs.Prelude.{◌≡◌, ◌<◌, IfSome, if◌then◌else◌, is_some, length};
ghost use Rattle.net_machine.specs.Conditions.{ends_at_rx};
ghost use Rattle.net_machine.specs.Plans.{block_in, block_out, consumer_of, is_among, producer_of};

use crate::{is_rx, stream_at};
use chdr_words::Epid;
use net_machine::RunPlan;

/// The block with an input at an EPID.
pub fn block_in(plan: &RunPlan, epid: Epid) -> Option<usize>
    ensures value { result ≡ block_in plan.now epid }
    ensures there { IfSome result (λ b. b < length plan.now.blocks) }
{
    plan.blocks
        .as_slice()
        .iter()
        .position(|block| is_among(epid, block.ins.as_slice()))
}

/// The block with an output at an EPID.
pub fn block_out(plan: &RunPlan, epid: Epid) -> Option<usize>
    ensures value { result ≡ block_out plan.now epid }
    ensures there { IfSome result (λ b. b < length plan.now.blocks) }
{
    plan.blocks
        .as_slice()
        .iter()
        .position(|block| is_among(epid, block.outs.as_slice()))
}

/// The block with an input at an EPID, else the one with an output there.
pub fn block_on(plan: &RunPlan, epid: Epid) -> Option<usize>
    ensures value { result ≡ (if is_some (block_in plan.now epid) then block_in plan.now epid else block_out plan.now epid) }
    ensures there { IfSome result (λ b. b < length plan.now.blocks) }
{
    match block_in(plan, epid) {
        Some(block) => Some(block),
        None => block_out(plan, epid),
    }
}

/// The block that makes a stream's packets.
pub fn producer_of(plan: &RunPlan, s: usize) -> Option<usize>
    requires { s < length plan.now.streams }
    ensures value { result ≡ producer_of plan.now s }
    ensures there { IfSome result (λ b. b < length plan.now.blocks) }
{
    block_out(plan, stream_at(plan, s).from)
}

/// The block that takes a stream's packets.
pub fn consumer_of(plan: &RunPlan, s: usize) -> Option<usize>
    requires { s < length plan.now.streams }
    ensures value { result ≡ consumer_of plan.now s }
    ensures there { IfSome result (λ b. b < length plan.now.blocks) }
{
    block_in(plan, stream_at(plan, s).to)
}

/// Whether the consumer of a stream is an Rx.
pub fn ends_at_rx(plan: &RunPlan, s: usize) -> bool
    requires { s < length plan.now.streams }
    ensures { result ≡ ends_at_rx plan.now s }
{
    match consumer_of(plan, s) {
        Some(block) => is_rx(plan.blocks.as_slice()[block].kind),
        None => false,
    }
}

/// Whether the EPID is one of these.
fn is_among(epid: Epid, epids: &[Epid]) -> bool
    ensures { result ≡ is_among epid epids.now }
{
    epids.iter().any(|one| one.0 == epid.0)
}
