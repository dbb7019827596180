//! The table that both ends share. Word 0 is the number of packets put, word 1 the number taken.
//! Packet k lies in the slot k modulo the room.
use crate::LanePlan;
use atomic_table::{Join, Play, Seat, Split, Table, TableRule};
use chdr_packets::{Packet, PacketList};
use std::alloc::Global;

pub(crate) const PUT: usize = 0;

pub(crate) const TAKEN: usize = 1;

/// What a seat at the table knows. No value of it is made.
pub struct View {
    /// It is the putter's seat.
    pub puts: bool,
    /// It is the taker's seat.
    pub takes: bool,
    /// The putter holds the slot that it fills.
    pub fills: bool,
    /// The taker holds the slot that it empties.
    pub empties: bool,
    pub plan: LanePlan,
    /// The packets that it knows to be put.
    pub put: PacketList,
    /// The packets that it knows to be taken.
    pub got: PacketList,
    /// What the taker knew to be put, and the putter to be taken, before both were joined.
    pub heard_put: PacketList,
    pub heard_got: PacketList,
}

/// The rule of docs/threads.md.
pub struct LaneRule;

impl TableRule<Option<Packet>, View, LanePlan> for LaneRule {
    ghost use Rattle.credit_lane.specs.Rule.{IsLane, opened};

    ghost holds = { λ plan. IsLane plan };

    ghost first = { opened };
}

pub(crate) type LaneTable = Table<Option<Packet>, View, LanePlan, LaneRule, Global>;

pub(crate) type LaneSeat = Seat<Option<Packet>, View>;

/// The putter loads its own count and takes the slot that it fills.
pub struct Fill;

impl Play<Option<Packet>, View> for Fill {
    ghost use Rattle.credit_lane.specs.Plays.{takes_empty};

    ghost then = { λ s m n w. takes_empty s m w };
}

/// The putter stores its count and gives the slot back with the packet.
pub struct Publish;

impl Play<Option<Packet>, View> for Publish {
    ghost use Rattle.credit_lane.specs.Plays.{gives_full};

    ghost then = { λ s m n w. gives_full m w };
}

/// The putter loads the taken count.
pub struct SeeTaken;

impl Play<Option<Packet>, View> for SeeTaken {
    ghost use Rattle.credit_lane.specs.Plays.{sees_taken};

    ghost then = { λ s m n w. sees_taken m n w };
}

/// The taker loads its own count and takes the slot that it empties.
pub struct Empty;

impl Play<Option<Packet>, View> for Empty {
    ghost use Rattle.credit_lane.specs.Plays.{takes_full};

    ghost then = { λ s m n w. takes_full s m w };
}

/// The taker stores its count and gives the slot back empty.
pub struct Release;

impl Play<Option<Packet>, View> for Release {
    ghost use Rattle.credit_lane.specs.Plays.{gives_empty};

    ghost then = { λ s m n w. gives_empty m w };
}

/// The taker loads the put count.
pub struct SeePut;

impl Play<Option<Packet>, View> for SeePut {
    ghost use Rattle.credit_lane.specs.Plays.{sees_put};

    ghost then = { λ s m n w. sees_put s m n w };
}

/// A load that tells a seat which is both ends how the two lists stand to one another.
pub struct Compare;

impl Play<Option<Packet>, View> for Compare {
    ghost use Rattle.credit_lane.specs.Plays.{compares};

    ghost then = { λ s m n w. compares s m w };
}

/// The taker's part of a view goes to a new seat.
pub struct PartTaker;

impl Split<View> for PartTaker {
    ghost use Rattle.credit_lane.specs.Rule.{putter_of, taker_of};

    ghost left = { putter_of };

    ghost right = { taker_of };
}

/// The putter's part of a view goes to a new seat.
pub struct PartPutter;

impl Split<View> for PartPutter {
    ghost use Rattle.credit_lane.specs.Rule.{putter_of, copy_of};

    ghost left = { copy_of };

    ghost right = { putter_of };
}

/// The putter's seat takes in the taker's, and is both ends.
pub struct Unite;

impl Join<View> for Unite {
    ghost use Rattle.credit_lane.specs.Rule.{joined, spent};

    ghost both = { joined };

    ghost spent = { spent };
}

/// A seat that was no end's becomes what the other one is.
pub struct TakeOver;

impl Join<View> for TakeOver {
    ghost use Rattle.credit_lane.specs.Rule.{spent};

    ghost both = { λ v w. w };

    ghost spent = { spent };
}
