ghost use Rattle.std.specs.Prelude.{◌<◌, ◌≤◌, ◌↔◌, IsTrue, IfNone, MatchOption, length};
ghost use Rattle.net_machine.specs.CanBegin.{CanBegin, EachBlock, EachStream, HasStreams, IsLed};
ghost use Rattle.run_plans.specs.Firsts.{IsLeastWithout};
ghost use Rattle.run_plans.specs.RunRefusals.{IsLaidOut, IsOpenAt, IsRunRefusal, IsShort, IsSmall};

use crate::bounds::{has_streams, is_short, is_small, stream_at};
use crate::{Reaches, RunRefusal};
use net_machine::RunPlan;

/// Why a run of a plan can't begin on a network with these tables; nothing if it can.
///
/// Rule: docs/machine.md, "How a run begins".
pub fn run_refusal<T: Reaches>(plan: &RunPlan, tables: &T) -> Option<RunRefusal>
    requires blocks { length plan.now.blocks ≤ 32 }
    requires streams { length plan.now.streams ≤ 16 }
    ensures exact { IsRunRefusal (T.tree tables.now) (T.nodes tables.now) plan.now result }
    ensures begins { IsLaidOut (T.tree tables.now) plan.now →
        IfNone result (CanBegin (T.tree tables.now) (T.nodes tables.now) plan.now) }
{
    if let Some(block) = open_block(plan) {
        return Some(RunRefusal::OpenPort { block });
    }
    if let Some(stream) = unrouted_stream(plan, tables) {
        return Some(RunRefusal::Unrouted { stream });
    }
    if let Some(stream) = big_stream(plan) {
        return Some(RunRefusal::TooBig { stream });
    }
    if let Some(stream) = long_stream(plan) {
        return Some(RunRefusal::TooMuch { stream });
    }
    None
}

/// The first block with a port without a stream.
fn open_block(plan: &RunPlan) -> Option<u16>
    requires { length plan.now.blocks ≤ 32 }
    ensures { MatchOption result (EachBlock plan.now (HasStreams plan.now)) (IsOpenAt plan.now) }
{
    for b in 0..plan.blocks.len() {
        if !has_streams(plan, b) {
            return Some(b as u16);
        }
    }
    None
}

/// The first stream that the tables don't lead there and back.
fn unrouted_stream<T: Reaches>(plan: &RunPlan, tables: &T) -> Option<u16>
    requires { length plan.now.streams ≤ 16 }
    ensures { MatchOption result
        (EachStream plan.now (IsLed (T.tree tables.now) (T.nodes tables.now) plan.now))
        (IsLeastWithout (IsLed (T.tree tables.now) (T.nodes tables.now) plan.now) (length plan.now.streams)) }
{
    for s in 0..plan.streams.len() {
        if !is_led(plan, tables, s) {
            return Some(s as u16);
        }
    }
    None
}

/// The first stream with a packet above its flow's `max`.
pub(crate) fn big_stream(plan: &RunPlan) -> Option<u16>
    requires { length plan.now.streams ≤ 16 }
    ensures { MatchOption result
        (EachStream plan.now (IsSmall plan.now))
        (IsLeastWithout (IsSmall plan.now) (length plan.now.streams)) }
{
    for s in 0..plan.streams.len() {
        if !is_small(plan, s) {
            return Some(s as u16);
        }
    }
    None
}

/// The first stream that may have too many packets.
pub(crate) fn long_stream(plan: &RunPlan) -> Option<u16>
    requires { length plan.now.streams ≤ 16 }
    ensures { MatchOption result
        (EachStream plan.now (IsShort plan.now))
        (IsLeastWithout (IsShort plan.now) (length plan.now.streams)) }
{
    for s in 0..plan.streams.len() {
        if !is_short(plan, s) {
            return Some(s as u16);
        }
    }
    None
}

/// Whether the tables lead from the stream's producer to its consumer, and back.
fn is_led<T: Reaches>(plan: &RunPlan, tables: &T, s: usize) -> bool
    requires { s < length plan.now.streams }
    ensures { IsTrue result ↔ IsLed (T.tree tables.now) (T.nodes tables.now) plan.now s }
{
    let stream = stream_at(plan, s);
    tables.reaches(stream.from, stream.to) && tables.reaches(stream.to, stream.from)
}
