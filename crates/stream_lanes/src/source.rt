ghost use Rattle.std.specs.Prelude.{◌≡◌, ◌+◌, ◌<◌, ◌≤◌, [], false, length, min, Ok, OnOk};
ghost use mathlib.Core.List.{IsPrefix};
ghost use Rattle.block_library.specs.Producer.{FitsPlan};
ghost use Rattle.credit_lane.specs.declared.plan.LanePlan.TheVariants.{Producer};
ghost use Rattle.stream_lanes.specs.Working.{Fills};

use crate::Gate;
use block_library::TxPlan;
use credit_lane::{LaneRx, LaneTx, meet};
use rf_base::Memory;
use std::alloc::Global;
use std::marker::Model;

/// The worker of a stream that a Tx fills: it puts what the Tx makes into the stream's lane.
#[derive(Drop)]
pub struct Source<'a> {
    stream: u16,
    tx: LaneTx<'a>,
    makes: TxPlan,
    /// The number of the next packet to put.
    next: u32,
    /// Whether any packet was put in the last round.
    moved: bool,
    /// How the last round went.
    ended: Result<(), Memory>,
}

impl<'a> Model for Source<'a> {
    ghost use Rattle.stream_lanes.specs.Sides.{SourceSide};

    ghost Value = { SourceSide };

    ghost use Rattle.stream_lanes.specs.Inside.{source_side, KeepsSource};

    ghost view = { source_side };

    ghost invariant = { KeepsSource };
}

impl<'a> Source<'a> {
    /// The worker of a stream over an end of an empty lane for what its Tx makes.
    pub fn new(stream: u16, tx: LaneTx<'a>, makes: TxPlan) -> Source<'a>
        requires fits { FitsPlan makes }
        requires lane { tx.lane.plan ≡ Producer makes }
        requires none { tx.put ≡ [] }
        ensures stream { result.stream ≡ stream }
        ensures tx { result.tx ≡ tx.entry }
        ensures makes { result.makes ≡ makes }
        ensures idle { (result.moved ≡ false) × (result.ended ≡ Ok (record {})) }
    {
        Source {
            stream,
            tx,
            makes,
            next: 0,
            moved: false,
            ended: Ok(()),
        }
    }
}

impl Source<'_> {
    /// Whether any packet was put in the last round.
    pub fn moved(&self) -> bool
        ensures { result ≡ self.now.moved }
    {
        self.moved
    }

    /// How the last round went.
    pub fn ended(&self) -> Result<(), Memory>
        ensures { result ≡ self.now.ended }
    {
        self.ended
    }

    /// Tells each end of the lane what the other one did, between two rounds.
    pub fn meet(&mut self, rx: &mut LaneRx<'_>)
        requires { self.old.tx.lane ≡ rx.old.lane }
        ensures worker { self.new ≡ record self.old { tx = self.new.tx } }
        ensures lane { (self.new.tx.lane ≡ self.old.tx.lane) × (rx.new.lane ≡ rx.old.lane) }
        ensures kept { (self.new.tx.put ≡ self.old.tx.put) × (rx.new.got ≡ rx.old.got) }
        ensures known { (self.new.tx.taken ≡ length rx.old.got) × (rx.new.known ≡ self.old.tx.put) }
        ensures order { IsPrefix rx.old.got self.old.tx.put }
    {
        meet(&mut self.tx, rx);
    }

    /// One round: looks once, and puts all that there is room for then.
    ///
    /// The worker keeps how the round went.
    pub(crate) fn work<G: Gate>(&mut self, alloc: Global, gate: &G)
        ensures { Fills self.old self.new }
    {
        let before = self.next;
        self.tx.look_taken();
        self.ended = fill(
            alloc,
            gate,
            self.stream,
            &self.makes,
            &mut self.tx,
            &mut self.next,
        );
        self.moved = before < self.next;
    }
}

/// Puts the next packets of a Tx into its lane, while there is room and any is left.
#[tactic(auto, using(crate::proofs::Lists::lists))]
fn fill<G: Gate>(
    alloc: Global,
    gate: &G,
    stream: u16,
    makes: &TxPlan,
    tx: &mut LaneTx<'_>,
    next: &mut u32,
) -> Result<(), Memory>
    requires fits { FitsPlan makes.now × (tx.old.lane.plan ≡ Producer makes.now) }
    requires next { (next.old ≡ length tx.old.put) × (next.old ≤ makes.now.packets) }
    ensures lane { (tx.new.lane ≡ tx.old.lane) × (tx.new.taken ≡ tx.old.taken) }
    ensures next { (next.new ≡ length tx.new.put) × (next.new ≤ makes.now.packets) }
    ensures longer { IsPrefix tx.old.put tx.new.put }
    ensures full { OnOk result (length tx.new.put ≡ min makes.now.packets (tx.new.lane.room + tx.new.taken)) }
{
    while tx.room() > 0 && *next < makes.packets {
        let packet = makes.packet(alloc, *next)?;
        gate.pass(stream, u64::from(*next));
        tx.put(packet);
        *next += 1;
    }
    Ok(())
}
