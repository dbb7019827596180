//! What Rx and sink blocks took, once a run is at its end.
ghost use Rattle.std.specs.Prelude.{◌≡◌, ◌<◌, ◌≤◌, ℕ, [], false, true, length, map, vec_len, IfOk, MatchOption, Some};
ghost use Rattle.std.specs.Option.{option_map_or};
ghost use Rattle.net_machine.specs.CanBegin.{FitsRun};
ghost use Rattle.net_machine.specs.Plans.{block_at, is_rx, stream_into};
ghost use Rattle.net_machine.specs.State.{State};
ghost use Rattle.net_machine.specs.Tallies.{line_at};
ghost use Rattle.net_present.specs.Fits.{ArePlanned};
ghost use Rattle.fabric_net.specs.Standing.{StandsFor};
ghost use Rattle.run_books.specs.Books.{blocks_of};
ghost use Rattle.stream_pump.specs.Drains.{AreTaken, drain_at};
ghost use Rattle.stream_pump.specs.Supply.{CarriesOut};
ghost use Rattle.stream_pump.specs.Telling.{drained_by, has_line};

use block_library::{BlockKind, Line};
use chdr_packets::{Packet, PacketList};
use fabric_net::Net;
use net_machine::{BlockPlan, RunPlan};
use plan_lookups::{is_rx, stream_into};
use rf_base::{Items, Memory};
use run_books::{Lines, TakenLists};
use std::alloc::Global;
use std::mem;

/// The lines of the Rx and sink blocks.
pub(crate) fn lines(
    alloc: Global,
    net: &Net,
    plan: &RunPlan,
    drains: &[PacketList],
) -> Result<Lines, Memory>
    requires plan { CarriesOut net.now.present plan.now }
    requires drains { length drains.now ≡ length plan.now.streams }
    requires fits { FitsRun plan.now }
    requires few { length plan.now.blocks ≤ 32 }
    ensures { IfOk result (λ lines. (w : State) → StandsFor net.now.present w → AreTaken net.now.present w drains.now →
        lines ≡ map (line_at w) (blocks_of has_line plan.now)) }
{
    let mut lines = Items::new(alloc);
    for b in 0..plan.blocks.len() {
        if let Some(line) = line_of(net, plan, drains, b as u16) {
            lines.push(line)?;
        }
    }
    Ok(lines)
}

/// The line of a block; only an Rx and a sink have one.
fn line_of(net: &Net, plan: &RunPlan, drains: &[PacketList], b: u16) -> Option<Line>
    requires plan { CarriesOut net.now.present plan.now }
    requires drains { length drains.now ≡ length plan.now.streams }
    requires fits { FitsRun plan.now }
    requires there { b < length plan.now.blocks }
    ensures { MatchOption result
        (has_line (block_at plan.now b).kind ≡ false)
        (λ line. (has_line (block_at plan.now b).kind ≡ true) × ((w : State) → StandsFor net.now.present w →
        AreTaken net.now.present w drains.now → line ≡ line_at w b)) }
{
    let block = &plan.blocks.as_slice()[b as usize];
    match block.kind {
        BlockKind::Rx => Some(Line::of(b, block.item, drained(plan, block, drains))),
        BlockKind::Sink => Some(net.sunk(b)),
        BlockKind::Tx | BlockKind::Fifo | BlockKind::Split | BlockKind::Switch(_) => None,
        BlockKind::Keep(_) | BlockKind::Repeat(_) | BlockKind::Replay(_) => None,
    }
}

/// What was handed out of the stream into a block.
fn drained<'a>(plan: &RunPlan, block: &BlockPlan, drains: &'a [PacketList]) -> &'a [Packet]
    requires { length drains.now ≡ length plan.now.streams }
    ensures { result.now ≡ option_map_or (drain_at drains.now) (stream_into plan.now block.now 0) [] }
{
    match stream_into(plan, block, 0) {
        Some(s) => drains[s].as_slice(),
        None => &[],
    }
}

/// The lists of the Rx blocks, moved out of those of their streams.
pub(crate) fn taken_lists(
    alloc: Global,
    plan: &RunPlan,
    drains: &mut Vec<PacketList>,
) -> Result<TakenLists, Memory>
    requires planned { ArePlanned plan.now }
    requires drains { vec_len drains.old ≡ length plan.now.streams }
    ensures { IfOk result (λ taken. taken ≡ map (drained_by plan.now drains.old.items) (blocks_of is_rx plan.now)) }
{
    let mut taken = Items::new(alloc);
    for b in 0..plan.blocks.len() {
        let block = &plan.blocks.as_slice()[b];
        if is_rx(block.kind) {
            taken.push(take_list(alloc, plan, block, drains))?;
        }
    }
    Ok(taken)
}

/// Moves the list of the stream into a block out, and leaves an empty one.
fn take_list(
    alloc: Global,
    plan: &RunPlan,
    block: &BlockPlan,
    drains: &mut Vec<PacketList>,
) -> PacketList
    requires { vec_len drains.old ≡ length plan.now.streams }
    ensures list { result ≡ option_map_or (drain_at drains.old.items) (stream_into plan.now block.now 0) [] }
    ensures others { (s : ℕ) → (stream_into plan.now block.now 0 ≡ Some s → ⊥) → drain_at drains.new.items s ≡ drain_at drains.old.items s }
    ensures many { vec_len drains.new ≡ vec_len drains.old }
{
    match stream_into(plan, block, 0) {
        Some(s) => mem::replace(&mut drains[s], Items::new(alloc)),
        None => Items::new(alloc),
    }
}
