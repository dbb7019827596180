ghost use Rattle.std.specs.Prelude.{◌≡◌, ◌<◌, ◌≤◌, [], false, length, Ok, OnOk};
ghost use mathlib.Core.List.{IsPrefix};
ghost use Rattle.stream_lanes.specs.Working.{Empties};

use crate::Gate;
use chdr_packets::Packet;
use credit_lane::{LaneRx, LaneTx, meet};
use rf_base::Memory;
use std::alloc::Global;
use std::marker::Model;

/// The number from which gates count the drains of streams.
const FIRST_DRAIN: u16 = 32_768;

/// The worker of a stream to an Rx: it takes what comes out of the stream's lane.
#[derive(Drop)]
pub struct Drain<'a> {
    stream: u16,
    rx: LaneRx<'a>,
    /// What was taken.
    list: Vec<Packet>,
    /// The number of the next round.
    round: u64,
    /// Whether any packet was taken in the last round.
    moved: bool,
    /// How the last round went.
    ended: Result<(), Memory>,
}

impl<'a> Model for Drain<'a> {
    ghost use Rattle.stream_lanes.specs.Sides.{DrainSide};

    ghost Value = { DrainSide };

    ghost use Rattle.stream_lanes.specs.Inside.{drain_side, KeepsDrain};

    ghost view = { drain_side };

    ghost invariant = { KeepsDrain };
}

impl<'a> Drain<'a> {
    /// The worker of a stream over an end of a lane of which nothing was taken.
    pub fn new(alloc: Global, stream: u16, rx: LaneRx<'a>) -> Drain<'a>
        requires stream { stream < 32768 }
        requires none { rx.got ≡ [] }
        ensures stream { result.stream ≡ stream }
        ensures rx { result.rx ≡ rx.entry }
        ensures idle { (result.moved ≡ false) × (result.ended ≡ Ok (record {})) }
    {
        Drain {
            stream,
            rx,
            list: Vec::new(alloc),
            round: 0,
            moved: false,
            ended: Ok(()),
        }
    }
}

impl Drain<'_> {
    /// What was taken.
    pub fn list(&self) -> &[Packet]
        ensures { result.now ≡ self.now.rx.got }
    {
        self.list.as_slice()
    }

    /// Whether any packet was taken in the last round.
    pub fn moved(&self) -> bool
        ensures { result ≡ self.now.moved }
    {
        self.moved
    }

    /// How the last round went.
    pub fn ended(&self) -> Result<(), Memory>
        ensures { result ≡ self.now.ended }
    {
        self.ended
    }

    /// Tells each end of the lane what the other one did, between two rounds.
    pub fn meet(&mut self, tx: &mut LaneTx<'_>)
        requires { tx.old.lane ≡ self.old.rx.lane }
        ensures worker { self.new ≡ record self.old { rx = self.new.rx } }
        ensures lane { (self.new.rx.lane ≡ self.old.rx.lane) × (tx.new.lane ≡ tx.old.lane) }
        ensures kept { (self.new.rx.got ≡ self.old.rx.got) × (tx.new.put ≡ tx.old.put) }
        ensures known { (tx.new.taken ≡ length self.old.rx.got) × (self.new.rx.known ≡ tx.old.put) }
        ensures order { IsPrefix self.old.rx.got tx.old.put }
        ensures rises { tx.old.taken ≤ tx.new.taken }
    {
        meet(tx, &mut self.rx);
    }

    /// One round: looks once, and takes all that is there then.
    ///
    /// The worker keeps how the round went.
    pub(crate) fn work<G: Gate>(&mut self, gate: &G)
        ensures { Empties self.old self.new }
    {
        gate.pass(FIRST_DRAIN.wrapping_add(self.stream), self.round);
        self.round = self.round.wrapping_add(1);
        let before = self.list.len();
        self.rx.look_put();
        self.ended = take_all(&mut self.rx, &mut self.list);
        self.moved = before < self.list.len();
    }
}

/// Takes all that is known to be put into a list.
#[tactic(auto, using(crate::proofs::Lists::lists))]
fn take_all(rx: &mut LaneRx<'_>, list: &mut Vec<Packet>) -> Result<(), Memory>
    requires list { list.old.items ≡ rx.old.got }
    requires order { IsPrefix rx.old.got rx.old.known }
    ensures list { list.new.items ≡ rx.new.got }
    ensures lane { (rx.new.known ≡ rx.old.known) × (rx.new.lane ≡ rx.old.lane) }
    ensures longer { IsPrefix rx.old.got rx.new.got }
    ensures all { OnOk result (rx.new.got ≡ rx.new.known) }
{
    while rx.waiting() > 0 {
        list.reserve(1)?;
        list.push_reserved(rx.take());
    }
    Ok(())
}
