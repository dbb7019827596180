//! A run, from its beginning to its book.
ghost use Rattle.std.specs.Prelude.{◌≡◌, ◌≤◌, length, vec_len, IfOk, OnOk};
ghost use Rattle.std.specs.List.{AllByRecursion};
ghost use Rattle.net_machine.specs.Begin.{begun};
ghost use Rattle.net_machine.specs.CanBegin.{CanBegin, FitsRun};
ghost use Rattle.net_machine.specs.Moves.{after_journal};
ghost use Rattle.net_machine.specs.State.{State};
ghost use Rattle.net_present.specs.Fits.{ArePlanned};
ghost use Rattle.net_runs.specs.Runs.{LosesNothing};
ghost use Rattle.fabric_net.specs.Standing.{IsResting, StandsFor};
ghost use Rattle.run_books.specs.Books.{IsChosenBook};
ghost use Rattle.stream_pump.specs.Drains.{AreTaken};
ghost use Rattle.stream_pump.specs.PlainBooks.{IsPlainBook};
ghost use Rattle.stream_pump.specs.Supply.{CarriesOut};
ghost use Rattle.stream_pump.specs.Telling.{TellsNow};

use crate::drains::no_drains;
use crate::events::run_events;
use crate::lines::{lines, taken_lists};
use crate::sides::SidedPlan;
use crate::tells::{ends, tallies};
use block_registers::RegisterSlots;
use chdr_packets::PacketList;
use fabric_net::Net;
use net_machine::{Event, RunPlan, Seed};
use rf_base::{Copyable, Items, Memory};
use run_books::RunBook;
use std::alloc::Global;

/// Runs a plan on a net at rest to its end, on one thread: after each event each Rx takes all that came to it, and then
/// the seed chooses the next event.
///
/// At `Err` the net is only good to be built anew, and registers may have been written. Rule: docs/machine.md,
/// "One thread".
pub fn run_one<B: RegisterSlots>(
    alloc: Global,
    net: &mut Net,
    banks: &mut B,
    plan: &RunPlan,
    seed: Seed,
) -> Result<RunBook, Memory>
    requires rest { IsResting net.old.present }
    requires can { CanBegin net.old.present.tree net.old.present.nodes plan.now }
    ensures book { IfOk result (λ book. (w : State) → StandsFor net.old.present w → w.banks ≡ B.slots banks.old →
        IsChosenBook seed.0 (begun plan.now w) book) }
    ensures net { IfOk result (λ book. (w : State) → StandsFor net.old.present w → w.banks ≡ B.slots banks.old →
        StandsFor net.new.present (after_journal (begun plan.now w) book.journal)) }
    ensures banks { IfOk result (λ book. (w : State) → StandsFor net.old.present w → w.banks ≡ B.slots banks.old →
        (after_journal (begun plan.now w) book.journal).banks ≡ B.slots banks.new) }
    ensures rest { OnOk result (IsResting net.new.present) }
    ensures plain { IfOk result (λ book. AllByRecursion LosesNothing book.journal → IsPlainBook plan.now book) }
{
    net.stands();
    net.begin(plan)?;
    let mut drains = no_drains(alloc, plan.streams.len())?;
    let sided = SidedPlan::of(alloc, plan)?;
    run_events(net, banks, &sided, seed, &mut drains)?;
    book(alloc, net, plan, drains)
}

/// The book of a run that is at its end: what the net tells, with what its consumers took, by the numbers of their streams.
pub fn book(
    alloc: Global,
    net: &Net,
    plan: &RunPlan,
    mut drains: Vec<PacketList>,
) -> Result<RunBook, Memory>
    requires plan { CarriesOut net.now.present plan.now }
    requires drains { vec_len drains ≡ length plan.now.streams }
    requires fits { FitsRun plan.now }
    requires few { length plan.now.blocks ≤ 32 }
    requires planned { ArePlanned plan.now }
    ensures journal { IfOk result (λ book. book.journal ≡ net.now.journal) }
    ensures tells { IfOk result (λ book. (w : State) → StandsFor net.now.present w → AreTaken net.now.present w drains.items →
        TellsNow w book) }
{
    let streams = plan.streams.len() as u16;
    let lines = lines(alloc, net, plan, drains.as_slice())?;
    Ok(RunBook {
        journal: Items::from_vec(Event::copy_all(alloc, net.journal())?),
        ends: ends(alloc, net, streams)?,
        tallies: tallies(alloc, net, streams)?,
        taken: taken_lists(alloc, plan, &mut drains)?,
        lines,
    })
}
