ghost use Rattle.std.specs.Prelude.{◌≡◌, ℕ, ◌<◌, length, slice_index_or, IfOk};
ghost use Rattle.net_machine.specs.State.{State};
ghost use Rattle.stream_lanes.specs.Sides.{DrainSide, SourceSide};
ghost use Rattle.stream_lanes.specs.Working.{EachEmpties, EachFills};
ghost use Rattle.stream_rounds.specs.Between.{IsGoing};
ghost use Rattle.stream_rounds.specs.Meeting.{AllDrainsHaveMet, AllHaveMet};
ghost use Rattle.stream_rounds.specs.Rounds.{HasTurned, IsRound, has_moved};
ghost use Rattle.stream_rounds.specs.Sides.{IntakeSide, OutletSide};
ghost use Rattle.stream_rounds.specs.Wiring.{IsWired};

use crate::{Drain, Edges, FabricWorker, Gate, Intake, Outlet, Source};
use block_registers::RegisterSlots;
use fabric_net::Net;
use rf_base::Memory;
use std::alloc::Global;
use std::marker::Model;
use std::thread::{Threads, join_mut};

/// The workers of a run: those at the edges and the fabric, each with its ends of the lanes.
#[derive(Drop)]
pub struct Pump<'a> {
    edges: Edges<'a>,
    fabric: FabricWorker<'a>,
}

impl<'a> Model for Pump<'a> {
    ghost use Rattle.stream_rounds.specs.Sides.{Ends};

    ghost Value = { Ends };

    ghost use Rattle.stream_rounds.specs.Inside.{ends_of};

    ghost view = { ends_of };
}

impl Pump<'_> {
    /// One round: both ends of each lane meet, and then all workers work at once. It tells whether anybody put or took a
    /// packet, or any event happened.
    ///
    /// At `Err` the net and the pump are only good to be dropped. Rule: docs/threads.md, "Rounds".
    pub fn round<R: Threads + Sync, B: RegisterSlots + Send, G: Gate>(
        &mut self,
        rt: &R,
        alloc: Global,
        net: &mut Net,
        banks: &mut B,
        gate: &G,
    ) -> Result<bool, Memory>
        requires wired { IsWired net.old.present.plan self.old.sources self.old.intakes self.old.outlets self.old.drains }
        requires going { (opened : State) × IsGoing opened net.old (B.slots banks.old) self.old.intakes self.old.outlets }
        ensures { IfOk result (λ moved. IsRound net.old net.new (B.slots banks.old) (B.slots banks.new) self.old self.new moved) }
    {
        meet_sources(&mut self.fabric.intakes, &mut self.edges.sources);
        meet_drains(&mut self.fabric.outlets, &mut self.edges.drains);
        work_all(
            rt,
            alloc,
            gate,
            &mut self.edges,
            &mut self.fabric,
            net,
            banks,
        );
        self.edges.ended()?;
        let stepped = self.fabric.ended?;
        Ok(self.moved(stepped))
    }

    /// Whether anybody put or took a packet in the last round, or any event happened.
    fn moved(&self, stepped: bool) -> bool
        ensures { result ≡ has_moved self.now stepped }
    {
        self.edges.moved() || stepped || self.fabric.moved()
    }
}

/// The ends of each source lane tell one another what they did.
fn meet_sources(intakes: &mut Vec<Intake<'_>>, sources: &mut Vec<Source<'_>>)
    requires count { length intakes.old.items ≡ length sources.old.items }
    requires lanes { (i : ℕ) → (x : SourceSide) → (y : IntakeSide) → i < length sources.old.items →
        (slice_index_or sources.old.items i x).tx.lane ≡ (slice_index_or intakes.old.items i y).rx.lane }
    ensures { AllHaveMet sources.old.items sources.new.items intakes.old.items intakes.new.items }
{
    for i in 0..sources.len() {
        let intake = &mut intakes[i];
        let source = &mut sources[i];
        intake.meet(source);
    }
}

/// The ends of each drain lane tell one another what they did.
fn meet_drains(outlets: &mut Vec<Outlet<'_>>, drains: &mut Vec<Drain<'_>>)
    requires count { length drains.old.items ≡ length outlets.old.items }
    requires lanes { (i : ℕ) → (x : OutletSide) → (y : DrainSide) → i < length outlets.old.items →
        (slice_index_or outlets.old.items i x).tx.lane ≡ (slice_index_or drains.old.items i y).rx.lane }
    ensures { AllDrainsHaveMet outlets.old.items outlets.new.items drains.old.items drains.new.items }
{
    for i in 0..outlets.len() {
        let outlet = &mut outlets[i];
        let drain = &mut drains[i];
        outlet.meet(drain);
    }
}

/// The workers at the edges and the fabric work at once.
fn work_all<R: Threads + Sync, B: RegisterSlots + Send, G: Gate>(
    rt: &R,
    alloc: Global,
    gate: &G,
    edges: &mut Edges<'_>,
    fabric: &mut FabricWorker<'_>,
    net: &mut Net,
    banks: &mut B,
)
    requires { (opened : State) × IsGoing opened net.old (B.slots banks.old) fabric.old.intakes.items fabric.old.outlets.items }
    ensures fills { EachFills edges.old.sources.items edges.new.sources.items }
    ensures empties { EachEmpties edges.old.drains.items edges.new.drains.items }
    ensures turned { HasTurned net.old net.new (B.slots banks.old) (B.slots banks.new) fabric.old.intakes.items fabric.new.intakes.items
        fabric.old.outlets.items fabric.new.outlets.items fabric.new.ended }
{
    join_mut(
        rt,
        &mut ||
            ensures { EachFills edges.entry.now.sources.items edges.exit.now.sources.items
                × EachEmpties edges.entry.now.drains.items edges.exit.now.drains.items }
        { edges.work(rt, alloc, gate) },
        &mut ||
            requires { (opened : State) × IsGoing opened net.now (B.slots banks.now) fabric.now.intakes.items fabric.now.outlets.items }
            ensures { HasTurned net.entry.now net.exit.now (B.slots banks.entry.now) (B.slots banks.exit.now)
                fabric.entry.now.intakes.items fabric.exit.now.intakes.items
                fabric.entry.now.outlets.items fabric.exit.now.outlets.items fabric.exit.now.ended }
        { fabric.work(net, banks, gate) },
    );
}
