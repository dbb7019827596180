ghost use Rattle.std.specs.Prelude.{◌≡◌, ◌<◌, ◌≤◌, [], IfOk, true};

use crate::rule::{LaneSeat, LaneTable, PartPutter, PartTaker};
use crate::{LanePlan, LaneRx, LaneTx};
use atomic_table::Table;
use rf_base::Memory;
use std::alloc::Global;
use std::marker::Model;

/// A bounded queue of packets with one putting end and one taking end.
///
/// Rule: docs/threads.md, "The rule".
#[derive(Drop)]
pub struct Lane {
    table: LaneTable,
    seat: LaneSeat,
    room: u32,
}

impl Model for Lane {
    ghost use Rattle.credit_lane.specs.Sides.{Unsplit};

    ghost Value = { Unsplit };

    ghost use Rattle.credit_lane.specs.Fields.{unsplit, KeepsWhole};

    ghost view = { unsplit };

    ghost invariant = { KeepsWhole };
}

impl Lane {
    /// An empty lane for at most `room` packets.
    pub fn new(alloc: Global, plan: LanePlan, room: u32) -> Result<Lane, Memory>
        requires { (0 < room) × (room ≤ 1024) }
        ensures plan { IfOk result (λ made. made.lane.plan ≡ plan) }
        ensures room { IfOk result (λ made. made.lane.room ≡ room) }
        ensures whole { IfOk result (λ made. made.whole ≡ true) }
    {
        let (table, seat) = Table::vacant(alloc, &[0, 0], room as usize, &plan)?;
        Ok(Lane { table, seat, room })
    }

    /// The two ends; a lane is split once.
    pub fn split(&mut self) -> (LaneTx<'_>, LaneRx<'_>)
        requires { self.old.whole ≡ true }
        ensures lane { (result.0.lane ≡ self.old.lane) × (result.1.lane ≡ self.old.lane) }
        ensures tx { (result.0.put ≡ []) × (result.0.taken ≡ 0) }
        ensures rx { (result.1.got ≡ []) × (result.1.known ≡ []) }
    {
        let room = self.room;
        let table = &self.table;
        let taker = table.shared.split_seat::<PartTaker>(&mut self.seat);
        let putter = table.shared.split_seat::<PartPutter>(&mut self.seat);
        let tx = LaneTx {
            table,
            seat: putter,
            room,
            put: 0,
            taken: 0,
        };
        let rx = LaneRx {
            table,
            seat: taker,
            room,
            taken: 0,
            put: 0,
        };
        (tx, rx)
    }
}
