ghost use Rattle.std.specs.Prelude.{◌≡◌, ◌<◌, ℕ, List, [], Option, length, nat_lt, IfOk, MatchBool, OnOk};
ghost use Rattle.std.specs.List.{list_any};
ghost use mathlib.Core.List.{IsPrefix};
ghost use Rattle.block_registers.specs.Registers.{Registers};
ghost use Rattle.net_machine.specs.State.{State};
ghost use Rattle.fabric_events.specs.Choosing.{doable_list};
ghost use Rattle.stream_rounds.specs.Between.{AreCaughtUp, AreFed, AreServed, IsGoing};
ghost use Rattle.stream_rounds.specs.Presents.{at};
ghost use Rattle.stream_rounds.specs.Rounds.{HasTurned, any_passed};
ghost use Rattle.stream_rounds.specs.Sides.{IntakeSide, OutletSide};
ghost use Rattle.stream_rounds.specs.Turns.{EachHears, EachLooks, EachHands, EachPasses, HaveNone};

use crate::events::settle;
use crate::{Gate, Intake, Outlet};
use block_registers::RegisterSlots;
use fabric_net::Net;
use rf_base::Memory;

/// The number under which the fabric passes a gate.
const FABRIC: u16 = 65_533;

/// The worker of the fabric: it alone has the net and its journal while a run goes on.
#[derive(Drop)]
pub struct FabricWorker<'a> {
    pub intakes: Vec<Intake<'a>>,
    pub outlets: Vec<Outlet<'a>>,
    /// The number of the next round.
    pub round: u64,
    /// How the last round went, and whether any event happened in it.
    pub ended: Result<bool, Memory>,
}

impl FabricWorker<'_> {
    /// One round: takes what the sources put, lets the consumers take what their drains took, lets events happen until
    /// none but a taking can, and puts into the drain lanes what was given.
    ///
    /// The worker keeps how the round went; at `Err` the net and the lanes are only good to be dropped.
    pub(crate) fn work<B: RegisterSlots, G: Gate>(&mut self, net: &mut Net, banks: &mut B, gate: &G)
        requires { (opened : State) × IsGoing opened net.old (B.slots banks.old) self.old.intakes.items self.old.outlets.items }
        ensures { HasTurned net.old net.new (B.slots banks.old) (B.slots banks.new) self.old.intakes.items self.new.intakes.items
            self.old.outlets.items self.new.outlets.items self.new.ended }
    {
        gate.pass(FABRIC, self.round);
        self.round = self.round.wrapping_add(1);
        self.ended = turn(&mut self.intakes, &mut self.outlets, net, banks);
    }

    /// Whether it took or put any packet in the last round.
    pub(crate) fn moved(&self) -> bool
        ensures { result ≡ any_passed self.now.intakes.items self.now.outlets.items }
    {
        any_taken(&self.intakes) || any_put(&self.outlets)
    }
}

/// Whether any packet was taken from a source lane in the last round.
fn any_taken(intakes: &[Intake<'_>]) -> bool
    ensures { result ≡ list_any (λ (x : IntakeSide). x.moved) intakes.now }
{
    intakes.iter().any(|intake| intake.moved())
}

/// Whether any packet was put into a drain lane in the last round.
fn any_put(outlets: &[Outlet<'_>]) -> bool
    ensures { result ≡ list_any (λ (x : OutletSide). x.moved) outlets.now }
{
    outlets.iter().any(|outlet| outlet.moved())
}

/// What the fabric does in a round; it tells whether any event happened.
fn turn<B: RegisterSlots>(
    intakes: &mut Vec<Intake<'_>>,
    outlets: &mut Vec<Outlet<'_>>,
    net: &mut Net,
    banks: &mut B,
) -> Result<bool, Memory>
    requires { (opened : State) × IsGoing opened net.old (B.slots banks.old) intakes.old.items outlets.old.items }
    ensures going { OnOk result ((opened : State) →
        IsGoing opened net.old (B.slots banks.old) intakes.old.items outlets.old.items →
        IsGoing opened net.new (B.slots banks.new) intakes.new.items outlets.new.items) }
    ensures hears { OnOk result (EachHears net.old.present intakes.old.items intakes.new.items) }
    ensures passes { OnOk result (EachPasses net.new.present outlets.old.items outlets.new.items) }
    ensures settled { OnOk result (doable_list net.new.present ≡ []) }
    ensures tells { IfOk result (λ stepped. MatchBool stepped
        (length net.old.journal < length net.new.journal) (net.new.journal ≡ net.old.journal)) }
{
    let before = net.journal().len();
    hear_all(intakes, net);
    look_all(outlets, net, banks)?;
    settle(net, banks)?;
    hand_over_all(outlets, net)?;
    Ok(longer(before, net))
}

/// Whether a net's journal has more events than so many.
fn longer(events: usize, net: &Net) -> bool
    ensures { result ≡ nat_lt events (length net.now.journal) }
{
    events < net.journal().len()
}

/// The fabric takes from each source lane what it finds.
fn hear_all(intakes: &mut Vec<Intake<'_>>, net: &mut Net)
    requires { AreFed net.old intakes.old.items }
    ensures hears { EachHears net.old.present intakes.old.items intakes.new.items }
    ensures journal { net.new.journal ≡ net.old.journal }
    ensures going { (opened : State) → (banks : List (Option Registers)) → (outlets : List OutletSide) →
        IsGoing opened net.old banks intakes.old.items outlets → IsGoing opened net.new banks intakes.new.items outlets }
{
    for i in 0..intakes.len() {
        intakes[i].work(net);
    }
}

/// The fabric looks at each drain lane, and each Rx takes what its drain took.
fn look_all<B: RegisterSlots>(
    outlets: &mut Vec<Outlet<'_>>,
    net: &mut Net,
    banks: &mut B,
) -> Result<(), Memory>
    ensures looks { OnOk result (EachLooks outlets.old.items outlets.new.items) }
    ensures journal { OnOk result (IsPrefix net.old.journal net.new.journal) }
    ensures going { OnOk result ((opened : State) → (intakes : List IntakeSide) →
        IsGoing opened net.old (B.slots banks.old) intakes outlets.old.items →
        IsGoing opened net.new (B.slots banks.new) intakes outlets.new.items) }
    ensures caught { OnOk result ((opened : State) → (intakes : List IntakeSide) →
        IsGoing opened net.old (B.slots banks.old) intakes outlets.old.items → AreCaughtUp net.new.present outlets.new.items) }
{
    for i in 0..outlets.len() {
        outlets[i].look(net, banks)?;
    }
    Ok(())
}

/// The fabric puts into each drain lane what was given.
fn hand_over_all(outlets: &mut Vec<Outlet<'_>>, net: &mut Net) -> Result<(), Memory>
    requires { AreServed net.old outlets.old.items }
    ensures hands { OnOk result (EachHands outlets.old.items outlets.new.items) }
    ensures journal { OnOk result (net.new.journal ≡ net.old.journal) }
    ensures none { OnOk result (HaveNone net.new.present outlets.new.items) }
    ensures going { OnOk result ((opened : State) → (banks : List (Option Registers)) → (intakes : List IntakeSide) →
        IsGoing opened net.old banks intakes outlets.old.items → IsGoing opened net.new banks intakes outlets.new.items) }
    ensures taken { OnOk result ((s : ℕ) → (at net.new.present s).taken ≡ (at net.old.present s).taken) }
    ensures settled { OnOk result (doable_list net.new.present ≡ doable_list net.old.present) }
{
    for i in 0..outlets.len() {
        outlets[i].hand_over(net)?;
    }
    Ok(())
}
