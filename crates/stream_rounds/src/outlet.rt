ghost use Rattle.std.specs.Prelude.{◌≡◌, ◌+◌, ◌<◌, ◌≤◌, ◌++◌, [], true, false, length, MatchBool, OnOk};
ghost use Rattle.credit_lane.specs.declared.plan.LanePlan.TheVariants.{Any};
ghost use Rattle.net_machine.specs.Conditions.{ends_at_rx};
ghost use Rattle.net_machine.specs.State.{State};
ghost use Rattle.fabric_net.specs.Standing.{StandsFor};
ghost use Rattle.stream_rounds.specs.Meeting.{HaveMetDrain};
ghost use Rattle.stream_rounds.specs.Presents.{at, handing};
ghost use Rattle.stream_rounds.specs.Steps.{Sees};

use crate::events::see;
use block_registers::RegisterSlots;
use credit_lane::LaneTx;
use fabric_net::Net;
use rf_base::Memory;
use std::marker::Model;
use stream_lanes::Drain;

/// The fabric's end of the lane of a stream to an Rx.
#[derive(Drop)]
pub struct Outlet<'a> {
    stream: u16,
    tx: LaneTx<'a>,
    /// How many packets were put.
    put: u32,
    /// Whether any packet was put in the last round.
    moved: bool,
}

impl<'a> Model for Outlet<'a> {
    ghost use Rattle.stream_rounds.specs.Sides.{OutletSide};

    ghost Value = { OutletSide };

    ghost use Rattle.stream_rounds.specs.Inside.{outlet_side, KeepsOutlet};

    ghost view = { outlet_side };

    ghost invariant = { KeepsOutlet };
}

impl<'a> Outlet<'a> {
    /// The fabric's end of a stream's lane, into which nothing was put.
    pub fn new(stream: u16, tx: LaneTx<'a>) -> Outlet<'a>
        requires none { tx.put ≡ [] }
        ensures stream { result.stream ≡ stream }
        ensures tx { result.tx ≡ tx.entry }
    {
        Outlet {
            stream,
            tx,
            put: 0,
            moved: false,
        }
    }
}

impl Outlet<'_> {
    /// Whether any packet was put in the last round.
    pub(crate) fn moved(&self) -> bool
        ensures { result ≡ self.now.moved }
    {
        self.moved
    }

    /// Tells each end of the lane what the other one did, between two rounds.
    pub(crate) fn meet(&mut self, drain: &mut Drain<'_>)
        requires { self.old.tx.lane ≡ drain.old.rx.lane }
        ensures { HaveMetDrain self.old self.new drain.old drain.new }
    {
        drain.meet(&mut self.tx);
    }

    /// Looks once, and lets the stream's Rx take as many packets as were taken from the lane then.
    pub(crate) fn look<B: RegisterSlots>(
        &mut self,
        net: &mut Net,
        banks: &mut B,
    ) -> Result<(), Memory>
        ensures stream { self.new.stream ≡ self.old.stream }
        ensures lane { self.new.tx.lane ≡ self.old.tx.lane }
        ensures put { self.new.tx.put ≡ self.old.tx.put }
        ensures rises { (self.old.tx.taken ≤ self.new.tx.taken) × (self.new.tx.taken ≤ length self.new.tx.put) }
        ensures sees { OnOk result
            (Sees self.old.stream self.new.tx.taken net.old net.new (B.slots banks.old) (B.slots banks.new)) }
    {
        let taken = self.tx.look_taken();
        see(net, banks, self.stream, taken)
    }

    /// Puts all that waits on the stream into the lane.
    pub(crate) fn hand_over(&mut self, net: &mut Net) -> Result<(), Memory>
        requires there { self.old.stream < length net.old.present.streams }
        requires rx { ends_at_rx net.old.present.plan self.old.stream ≡ true }
        requires plan { self.old.tx.lane.plan ≡ Any }
        requires room { length self.old.tx.put + length (at net.old.present self.old.stream).waiting
            ≤ self.old.tx.lane.room + self.old.tx.taken }
        ensures stream { self.new.stream ≡ self.old.stream }
        ensures lane { (self.new.tx.lane ≡ self.old.tx.lane) × (self.new.tx.taken ≡ self.old.tx.taken) }
        ensures put { OnOk result (self.new.tx.put ≡ self.old.tx.put ++ (at net.old.present self.old.stream).waiting) }
        ensures tells { OnOk result (MatchBool self.new.moved (length self.old.tx.put < length self.new.tx.put)
            (self.new.tx.put ≡ self.old.tx.put)) }
        ensures present { OnOk result (net.new.present ≡ handing self.old.stream [] net.old.present) }
        ensures machine { (w : State) → StandsFor net.old.present w → StandsFor net.new.present w }
        ensures journal { net.new.journal ≡ net.old.journal }
    {
        let before = self.put;
        hand_all(self.stream, &mut self.tx, &mut self.put, net)?;
        self.moved = before < self.put;
        Ok(())
    }
}

/// Puts all that waits on a stream into its lane, and counts it.
fn hand_all(stream: u16, tx: &mut LaneTx<'_>, put: &mut u32, net: &mut Net) -> Result<(), Memory>
    requires there { stream < length net.old.present.streams }
    requires rx { ends_at_rx net.old.present.plan stream ≡ true }
    requires plan { tx.old.lane.plan ≡ Any }
    requires room { length tx.old.put + length (at net.old.present stream).waiting ≤ tx.old.lane.room + tx.old.taken }
    requires count { put.old ≡ length tx.old.put }
    ensures lane { (tx.new.lane ≡ tx.old.lane) × (tx.new.taken ≡ tx.old.taken) }
    ensures count { put.new ≡ length tx.new.put }
    ensures put { OnOk result (tx.new.put ≡ tx.old.put ++ (at net.old.present stream).waiting) }
    ensures present { OnOk result (net.new.present ≡ handing stream [] net.old.present) }
    ensures machine { (w : State) → StandsFor net.old.present w → StandsFor net.new.present w }
    ensures journal { net.new.journal ≡ net.old.journal }
{
    while let Some(packet) = net.hand(stream) {
        if *put == u32::MAX {
            return Err(Memory);
        }
        tx.put(packet);
        *put += 1;
    }
    Ok(())
}
