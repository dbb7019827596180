//! The events of a run, one after another.
ghost use Rattle.std.specs.Prelude.{◌≡◌, [], length, vec_len, IsTrue, IfSome, IfOk, OnOk};
ghost use Rattle.net_machine.specs.State.{State};
ghost use Rattle.fabric_events.specs.Choosing.{doable_now};
ghost use Rattle.fabric_net.specs.Standing.{StandsFor};
ghost use Rattle.stream_pump.specs.Drains.{AreTaken};
ghost use Rattle.stream_pump.specs.Running.{HasRun, IsNext, IsOpen};
ghost use Rattle.stream_pump.specs.Supply.{CarriesOut};

use crate::drains::take_next;
use crate::sides::SidedPlan;
use crate::supply::supply;
use block_registers::RegisterSlots;
use chdr_packets::PacketList;
use fabric_net::Net;
use net_machine::{Event, Seed};
use rf_base::Memory;

/// Lets the events happen that the seed chooses, until none is left.
pub(crate) fn run_events<B: RegisterSlots>(
    net: &mut Net,
    banks: &mut B,
    plan: &SidedPlan<'_>,
    seed: Seed,
    drains: &mut Vec<PacketList>,
) -> Result<(), Memory>
    requires plan { CarriesOut net.old.present plan.now }
    requires drains { vec_len drains.old ≡ length plan.now.streams }
    requires fresh { net.old.journal ≡ [] }
    requires state { (w : State) × IsOpen net.old.present (B.slots banks.old) drains.old.items w }
    ensures run { OnOk result ((w : State) → IsOpen net.old.present (B.slots banks.old) drains.old.items w →
        HasRun seed.0 w net.new (B.slots banks.new) drains.new.items) }
    ensures plan { OnOk result (CarriesOut net.new.present plan.now) }
    ensures drains { OnOk result (vec_len drains.new ≡ length plan.now.streams) }
{
    let mut seed = seed;
    for _step in 0..u64::MAX {
        match next_event(net, plan, &mut seed, drains)? {
            Some(event) => {
                net.prepare(event)?;
                net.step(event, banks);
            }
            None => return Ok(()),
        }
    }
    Err(Memory)
}

/// What happens next: the first Rx that has packets to take takes all of them, else the seed chooses.
///
/// Rule: docs/machine.md, "One thread".
fn next_event(
    net: &mut Net,
    plan: &SidedPlan<'_>,
    seed: &mut Seed,
    drains: &mut Vec<PacketList>,
) -> Result<Option<Event>, Memory>
    requires plan { CarriesOut net.old.present plan.now }
    requires drains { vec_len drains.old ≡ length plan.now.streams }
    requires state { (w : State) × (StandsFor net.old.present w × AreTaken net.old.present w drains.old.items) }
    ensures next { IfOk result (λ next. (w : State) → StandsFor net.old.present w → AreTaken net.old.present w drains.old.items →
        IsNext seed.old.0 w next seed.new.0 net.new.present drains.new.items) }
    ensures doable { IfOk result (λ next. IfSome next (λ e. IsTrue (doable_now net.new.present e))) }
    ensures plan { OnOk result (CarriesOut net.new.present plan.now) }
    ensures drains { OnOk result (vec_len drains.new ≡ length plan.now.streams) }
    ensures journal { OnOk result (net.new.journal ≡ net.old.journal) }
{
    match take_next(net, plan, drains)? {
        Some(s) => Ok(Some(Event::Seen(s, drains[s as usize].len() as u64))),
        None => {
            supply(net, plan)?;
            Ok(net.choose(seed))
        }
    }
}
