ghost use Rattle.std.specs.Prelude.{◌≡◌, ◌+◌, ◌<◌, ◌≤◌, ◌∷◌, [], ◌++◌, length, slice_get, Some};
ghost use mathlib.Core.List.{IsPrefix};
ghost use Rattle.credit_lane.specs.Planned.{IsPlanned, IsNext};

use crate::rule::{Empty, LaneSeat, LaneTable, PUT, Release, SeePut, TAKEN};
use chdr_packets::Packet;
use std::marker::Model;

/// The taking end of a lane.
#[derive(Drop)]
pub struct LaneRx<'a> {
    pub(crate) table: &'a LaneTable,
    pub(crate) seat: LaneSeat,
    pub(crate) room: u32,
    pub(crate) taken: u64,
    pub(crate) put: u64,
}

impl<'a> Model for LaneRx<'a> {
    ghost use Rattle.credit_lane.specs.Sides.{TakeSide};

    ghost Value = { TakeSide };

    ghost use Rattle.credit_lane.specs.Fields.{take_side, KeepsTaken};

    ghost view = { take_side };

    ghost invariant = { KeepsTaken };
}

impl LaneRx<'_> {
    /// How many packets may be taken before the put count is looked at again.
    pub fn waiting(&self) -> u32
        ensures answer { result + length self.now.got ≡ length self.now.known }
        ensures most { result ≤ self.now.lane.room }
    {
        (self.put - self.taken) as u32
    }

    /// Takes the next packet.
    pub fn take(&mut self) -> Packet
        requires known { length self.old.got < length self.old.known }
        ensures next { slice_get self.old.known (length self.old.got) ≡ Some result }
        ensures got { self.new.got ≡ self.old.got ++ result ∷ [] }
        ensures plan { IsNext self.old.lane.plan self.old.got result }
        ensures order { IsPrefix self.new.got self.new.known }
        ensures planned { IsPlanned self.new.lane.plan self.new.got }
        ensures lane { self.new.lane ≡ self.old.lane }
        ensures kept { self.new.known ≡ self.old.known }
    {
        let slot = (self.taken % u64::from(self.room)) as usize;
        let table = &self.table.shared;
        table.load::<Empty>(&mut self.seat, TAKEN);
        let packet = table.exchange(&mut self.seat, slot, None);
        table.store::<Release>(&mut self.seat, TAKEN, self.taken + 1);
        self.taken += 1;
        packet.unwrap()
    }

    /// Looks at the number of packets put, and returns it.
    pub fn look_put(&mut self) -> u64
        ensures answer { result ≡ length self.new.known }
        ensures known { IsPrefix self.old.known self.new.known }
        ensures order { IsPrefix self.new.got self.new.known }
        ensures plan { IsPlanned self.new.lane.plan self.new.known }
        ensures lane { self.new.lane ≡ self.old.lane }
        ensures kept { self.new.got ≡ self.old.got }
    {
        let put = self.table.shared.load::<SeePut>(&mut self.seat, PUT);
        self.put = put;
        put
    }
}
