ghost use Rattle.std.specs.Prelude.{◌≡◌, ◌+◌, ◌-◌, ◌<◌, ◌≤◌, [], ◌∷◌, true, false, not, length, slice_get, IfOk, IfSome, is_some, All, Some};
ghost use Rattle.block_library.specs.Producer.{FitsPlan};
ghost use Rattle.net_machine.specs.Blocks.{has_packet};
ghost use Rattle.fabric_parts.specs.Ready.{IsMaking, IsShort, first_wire, most_offered, ready_first, unmade, wire_of_each};

use block_library::TxPlan;
use chdr_packets::{Packet, PacketList};
use chdr_words::wire_size;
use rf_base::Memory;
use std::alloc::Global;
use std::collections::VecDeque;
use std::marker::Model;

/// How many offered packets of a Tx wait at most.
pub const MOST_OFFERED: usize = 16;

/// What a producer has for its stream: of a Tx the rest of its list, made or not.
#[derive(Debug, Drop)]
pub struct Source {
    /// What a Tx makes.
    tx: Option<TxPlan>,
    /// How many packets of a Tx's list were offered, sent or not.
    made: u32,
    /// What was offered, or what a block gave, and isn't sent.
    front: VecDeque<Packet>,
}

impl Model for Source {
    ghost use Rattle.fabric_parts.specs.Ready.{SourceSeen};

    ghost Value = { SourceSeen };

    ghost use Rattle.fabric_parts.specs.Sources.{IsSound, view_of};

    ghost view = { view_of };

    ghost invariant = { IsSound };
}

impl Source {
    /// All that a Tx of this plan makes, or of another block nothing.
    pub fn new(alloc: Global, tx: Option<TxPlan>) -> Result<Source, Memory>
        requires { IfSome tx FitsPlan }
        ensures ready { IfOk result (λ source. source.ready ≡ ready_first tx) }
        ensures offered { IfOk result (λ source. source.offered ≡ 0) }
        ensures tx { IfOk result (λ source. source.is_tx ≡ is_some tx) }
    {
        let front = VecDeque::with_capacity(alloc, MOST_OFFERED)?;
        Ok(Source { tx, made: 0, front })
    }

    /// Whether nothing is ready.
    #[tactic(auto, using(crate::proofs::SourceLemmas::packet_lemmas))]
    pub fn is_empty(&self) -> bool
        ensures { result ≡ not (has_packet self.now.ready) }
    {
        self.first_wire().is_none()
    }

    /// The wire size of the first ready packet.
    pub fn first_wire(&self) -> Option<u32>
        ensures { result ≡ first_wire self.now.ready }
    {
        match self.front.front() {
            Some(packet) => Some(packet.wire_size()),
            None => next_wire(&self.tx, self.made),
        }
    }

    /// Whether a Tx makes the packets.
    pub fn is_tx(&self) -> bool
        ensures { result ≡ self.now.is_tx }
    {
        self.tx.is_some()
    }

    /// How many packets were offered and not sent.
    pub fn offered(&self) -> usize
        ensures value { result ≡ self.now.offered }
        ensures few { result ≤ most_offered }
    {
        match self.tx {
            Some(_) => self.front.len(),
            None => 0,
        }
    }

    /// The next packet of a Tx's list that wasn't offered.
    pub fn unoffered(&self) -> Result<Option<Packet>, Memory>
        requires { self.now.is_tx ≡ true }
        ensures { IfOk result (λ packet. packet ≡ slice_get self.now.ready self.now.offered) }
    {
        match &self.tx {
            Some(plan) => {
                if self.made < plan.packets {
                    Ok(Some(plan.packet(*self.front.allocator(), self.made)?))
                } else {
                    Ok(None)
                }
            }
            None => Ok(None),
        }
    }

    /// Takes the next packet of a Tx's list; it takes no memory.
    pub fn offer(&mut self, packet: Packet)
        requires tx { self.old.is_tx ≡ true }
        requires few { self.old.offered < most_offered }
        requires next { slice_get self.old.ready self.old.offered ≡ Some packet }
        ensures { self.new ≡ record self.old { offered = self.old.offered + 1 } }
    {
        self.made += 1;
        self.front.push_back_reserved(packet);
    }

    /// The first ready packet leaves; of a Tx it is one that was offered.
    pub fn pop(&mut self) -> Packet
        requires some { 0 < length self.old.ready }
        requires offered { self.old.is_tx ≡ true → 0 < self.old.offered }
        ensures ready { self.old.ready ≡ result ∷ self.new.ready }
        ensures offered { self.new.offered ≡ self.old.offered - 1 }
        ensures tx { self.new.is_tx ≡ self.old.is_tx }
        ensures short { IsShort result }
    {
        match self.front.pop_front() {
            Some(packet) => packet,
            None => unreachable!(),
        }
    }

    /// What a block gave becomes ready, where nothing is; the list is moved as it is.
    pub fn fill(&mut self, packets: PacketList)
        requires tx { self.old.is_tx ≡ false }
        requires none { self.old.ready ≡ [] }
        requires short { All IsShort packets }
        ensures { self.new ≡ record self.old { ready = packets } }
    {
        self.front = VecDeque::from_vec(packets.into_vec());
    }
}

/// The wire size of the first packet that wasn't offered.
fn next_wire(tx: &Option<TxPlan>, made: u32) -> Option<u32>
    requires { IsMaking tx.now made }
    ensures { result ≡ first_wire (unmade tx.now made) }
{
    match tx {
        Some(plan) => {
            if made < plan.packets {
                Some(wire_of(plan))
            } else {
                None
            }
        }
        None => None,
    }
}

/// The wire size of each packet that a Tx makes.
fn wire_of(plan: &TxPlan) -> u32
    requires { FitsPlan plan.now }
    ensures { result ≡ wire_of_each plan.now }
{
    let time = match plan.time {
        Some(_) => 8,
        None => 0,
    };
    wire_size((8 + time + plan.spp * plan.item) as u16)
}
