//! The memory that an event needs, taken before it happens.
ghost use Rattle.std.specs.Prelude.{◌≡◌, OnOk, IfOk};
ghost use Rattle.net_needs.specs.Feeding.{FeedNeeds};
ghost use Rattle.net_needs.specs.Hopping.{HopNeeds};
ghost use Rattle.net_needs.specs.Needs.{NeedsOf};
ghost use Rattle.fabric_events.specs.Fabrics.{IsSound, present_of};
ghost use Rattle.fabric_events.specs.Ready.{FeedReady, HasAnswerRoom, HopReady, IsReady};

use crate::fabric::Fabric;
use chdr_packets::Packet;
use fabric_lists::{blocks, sites, stream_reads};
use fabric_nodes::walking;
use net_machine::Event;
use net_nodes::{Room, asked_answers, reserve_answers};
use rf_base::Memory;
use std::alloc::Global;

impl Fabric {
    /// Takes the memory that an event needs, and gives the room for the answers of a packet that a node performs.
    ///
    /// At `Err` the present is as before too, and memory may have been taken.
    pub fn reserve(&mut self, event: Event) -> Result<Option<Room>, Memory>
        requires sound { IsSound self.old }
        requires needs { NeedsOf (present_of self.old) event }
        ensures sound { IsSound self.new }
        ensures present { present_of self.new ≡ present_of self.old }
        ensures ready { IfOk result (λ room. IsReady self.new room event) }
    {
        match event {
            Event::Feed(b, i) => {
                self.reserve_feed(b as usize, i)?;
                Ok(None)
            }
            Event::Hop(q) => self.reserve_hop(q),
            Event::Enter(_)
            | Event::Command(..)
            | Event::Report(_)
            | Event::Seen(..)
            | Event::Ask(_)
            | Event::Reply(_)
            | Event::Lose(_) => Ok(None),
        }
    }

    /// A block makes what it will give for the first waiting packet of the stream into an input.
    fn reserve_feed(&mut self, b: usize, i: u16) -> Result<(), Memory>
        requires sound { IsSound self.old }
        requires needs { FeedNeeds (present_of self.old) b i }
        ensures sound { IsSound self.new }
        ensures present { present_of self.new ≡ present_of self.old }
        ensures ready { OnOk result (FeedReady self.new b i) }
    {
        match self.input_of(b, i as usize) {
            Some(s) => match stream_reads::first_waiting(self.streams.as_slice(), s) {
                Some(packet) => blocks::prepare(&mut self.blocks, b, i, packet),
                None => Ok(()),
            },
            None => Ok(()),
        }
    }

    /// The node to which the front entry of a queue comes has room for it, and the packet for its answers.
    #[tactic(auto, using(crate::proofs::FrontLemmas::node_count))]
    fn reserve_hop(&mut self, q: u16) -> Result<Option<Room>, Memory>
        requires sound { IsSound self.old }
        requires needs { HopNeeds (present_of self.old) q }
        ensures sound { IsSound self.new }
        ensures present { present_of self.new ≡ present_of self.old }
        ensures ready { IfOk result (λ room. HopReady self.new room q) }
    {
        let alloc = *self.sites.allocator();
        let (x, _) = self.wires.end_at(q / 2);
        sites::reserve(&mut self.sites, x as usize)?;
        match self.queues.front(q as usize) {
            Some(entry) => answer_room(alloc, &entry.packet),
            None => Ok(None),
        }
    }
}

/// Room for the answers of a packet that nodes perform, if it has a hop besides its last.
fn answer_room(alloc: Global, packet: &Packet) -> Result<Option<Room>, Memory>
    ensures { IfOk result (λ room. HasAnswerRoom room packet.now) }
{
    match walking(packet) {
        Some(m) => {
            if m.hops.len() < 2 {
                Ok(None)
            } else {
                let room = reserve_answers(alloc, m, asked_answers(m))?;
                Ok(Some(room))
            }
        }
        None => Ok(None),
    }
}
