ghost use Rattle.std.specs.Prelude.{◌≡◌, ◌<◌, IfSome, length};
ghost use Rattle.net_machine.specs.Plans.{plan_at, stream_from, stream_into, stream_out_of, stream_to};

use chdr_words::Epid;
use net_machine::{BlockPlan, RunPlan, StreamPlan};

/// A stream of the plan.
pub fn stream_at(plan: &RunPlan, s: usize) -> StreamPlan
    requires { s < length plan.now.streams }
    ensures { result ≡ plan_at plan.now s }
{
    plan.streams.as_slice()[s]
}

/// The stream that begins at an EPID.
pub fn stream_from(plan: &RunPlan, epid: Epid) -> Option<usize>
    ensures value { result ≡ stream_from plan.now epid }
    ensures there { IfSome result (λ s. s < length plan.now.streams) }
{
    plan.streams
        .as_slice()
        .iter()
        .position(|stream| stream.from.0 == epid.0)
}

/// The stream that ends at an EPID.
pub fn stream_to(plan: &RunPlan, epid: Epid) -> Option<usize>
    ensures value { result ≡ stream_to plan.now epid }
    ensures there { IfSome result (λ s. s < length plan.now.streams) }
{
    plan.streams
        .as_slice()
        .iter()
        .position(|stream| stream.to.0 == epid.0)
}

/// The stream that ends at an input of a block.
pub fn stream_into(plan: &RunPlan, block: &BlockPlan, input: usize) -> Option<usize>
    ensures value { result ≡ stream_into plan.now block.now input }
    ensures there { IfSome result (λ s. s < length plan.now.streams) }
{
    let epid = block.ins.as_slice().get(input)?;
    stream_to(plan, *epid)
}

/// The stream that begins at an output of a block.
pub fn stream_out_of(plan: &RunPlan, block: &BlockPlan, output: usize) -> Option<usize>
    ensures value { result ≡ stream_out_of plan.now block.now output }
    ensures there { IfSome result (λ s. s < length plan.now.streams) }
{
    let epid = block.outs.as_slice().get(output)?;
    stream_from(plan, *epid)
}
