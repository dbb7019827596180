//! What both ends do together, in one thread.
ghost use Rattle.std.specs.Prelude.{◌≡◌, ◌+◌, ◌≤◌, length};
ghost use mathlib.Core.List.{IsPrefix};
ghost use Rattle.credit_lane.specs.Planned.{IsPlanned};

use crate::rule::{Compare, PUT, PartTaker, TakeOver, Unite};
use crate::{LaneRx, LaneTx};

/// How many packets went through a lane.
#[derive(Clone, Copy, Debug, PartialEq, Eq)]
pub struct LaneEnd {
    pub put: u64,
    pub got: u64,
}

/// Tells each end what the other one did.
pub fn meet(tx: &mut LaneTx<'_>, rx: &mut LaneRx<'_>)
    requires { tx.old.lane ≡ rx.old.lane }
    ensures known { (tx.new.taken ≡ length rx.old.got) × (rx.new.known ≡ tx.old.put) }
    ensures order { IsPrefix rx.old.got tx.old.put }
    ensures near { length tx.old.put ≤ length rx.old.got + tx.old.lane.room }
    ensures rises { (tx.old.taken ≤ tx.new.taken) × IsPrefix rx.old.known rx.new.known }
    ensures plan { IsPlanned tx.old.lane.plan tx.old.put }
    ensures lane { (tx.new.lane ≡ tx.old.lane) × (rx.new.lane ≡ rx.old.lane) }
    ensures kept { (tx.new.put ≡ tx.old.put) × (rx.new.got ≡ rx.old.got) }
{
    let table = &tx.table.shared;
    let taker = table.split_seat::<PartTaker>(&mut rx.seat);
    table.join_seat::<Unite>(&mut tx.seat, taker);
    table.load::<Compare>(&mut tx.seat, PUT);
    let taker = table.split_seat::<PartTaker>(&mut tx.seat);
    table.join_seat::<TakeOver>(&mut rx.seat, taker);
    tx.taken = rx.taken;
    rx.put = tx.put;
}

/// Ends a lane, and returns both counts. Packets that were not taken are dropped with the lane.
pub fn close(tx: LaneTx<'_>, rx: LaneRx<'_>) -> LaneEnd
    requires { tx.lane ≡ rx.lane }
    ensures counts { (result.put ≡ length tx.entry.put) × (result.got ≡ length rx.entry.got) }
    ensures order { IsPrefix rx.entry.got tx.entry.put }
    ensures near { length tx.entry.put ≤ length rx.entry.got + tx.entry.lane.room }
    ensures plan { IsPlanned tx.entry.lane.plan tx.entry.put }
{
    let LaneTx {
        table,
        mut seat,
        put,
        ..
    } = tx;
    let LaneRx {
        seat: taker,
        taken,
        ..
    } = rx;
    table.shared.join_seat::<Unite>(&mut seat, taker);
    table.shared.load::<Compare>(&mut seat, PUT);
    LaneEnd { put, got: taken }
}
