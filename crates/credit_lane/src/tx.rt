ghost use Rattle.std.specs.Prelude.{◌≡◌, ◌+◌, ◌-◌, ◌^◌, ◌<◌, ◌≤◌, ◌∷◌, [], ◌++◌, length};
ghost use Rattle.credit_lane.specs.Planned.{IsNext, IsPlanned};

use crate::rule::{Fill, LaneSeat, LaneTable, PUT, Publish, SeeTaken, TAKEN};
use chdr_packets::Packet;
use std::marker::Model;

/// The putting end of a lane.
#[derive(Drop)]
pub struct LaneTx<'a> {
    pub(crate) table: &'a LaneTable,
    pub(crate) seat: LaneSeat,
    pub(crate) room: u32,
    pub(crate) put: u64,
    pub(crate) taken: u64,
}

impl<'a> Model for LaneTx<'a> {
    ghost use Rattle.credit_lane.specs.Sides.{PutSide};

    ghost Value = { PutSide };

    ghost use Rattle.credit_lane.specs.Fields.{put_side, KeepsPut};

    ghost view = { put_side };

    ghost invariant = { KeepsPut };
}

impl LaneTx<'_> {
    /// How many packets may be put before the taken count is looked at again.
    pub fn room(&self) -> u32
        ensures answer { result + length self.now.put ≡ self.now.lane.room + self.now.taken }
        ensures most { result ≤ self.now.lane.room }
    {
        self.room - (self.put - self.taken) as u32
    }

    /// Puts a packet.
    pub fn put(&mut self, packet: Packet)
        requires room { length self.old.put < self.old.lane.room + self.old.taken }
        requires count { length self.old.put < 2 ^ 63 }
        requires plan { IsNext self.old.lane.plan self.old.put packet }
        ensures put { self.new.put ≡ self.old.put ++ packet ∷ [] }
        ensures plan { IsPlanned self.new.lane.plan self.new.put }
        ensures lane { self.new.lane ≡ self.old.lane }
        ensures kept { self.new.taken ≡ self.old.taken }
    {
        let slot = (self.put % u64::from(self.room)) as usize;
        let table = &self.table.shared;
        table.load::<Fill>(&mut self.seat, PUT);
        match table.exchange(&mut self.seat, slot, Some(packet)) {
            None => {}
            Some(_) => unreachable!(),
        }
        table.store::<Publish>(&mut self.seat, PUT, self.put + 1);
        self.put += 1;
    }

    /// Looks at the number of packets taken, and returns it.
    pub fn look_taken(&mut self) -> u64
        ensures answer { result ≡ self.new.taken }
        ensures rises { (self.old.taken ≤ result) × (result ≤ length self.new.put) }
        ensures lane { self.new.lane ≡ self.old.lane }
        ensures kept { self.new.put ≡ self.old.put }
    {
        let taken = self.table.shared.load::<SeeTaken>(&mut self.seat, TAKEN);
        self.taken = taken;
        taken
    }
}
