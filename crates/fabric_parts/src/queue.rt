ghost use Rattle.std.specs.Prelude.{◌≡◌, not, ◌==◌, ◌<◌, ◌++◌, [], ◌∷◌, length, slice_get, option_copied, IfOk, MatchOption};
ghost use Rattle.std.specs.List.{list_all};
ghost use Rattle.net_machine.specs.Conditions.{is_of};
ghost use Rattle.net_machine.specs.Front.{Queued};

use chdr_packets::{Body, Packet};
use chdr_words::Epid;
use circular_buffer::HeapCircularBuffer;
use net_machine::StreamPlan;
use rf_base::Memory;
use std::alloc::Global;
use std::marker::Model;

/// A packet in a queue; a marked one is to be lost.
#[derive(Debug, Drop)]
pub struct Entry {
    pub packet: Packet,
    pub marked: bool,
}

impl Model for Entry {
    ghost use Rattle.net_machine.specs.Front.{Queued};

    ghost Value = { Queued };

    ghost view = { λ entry. record { packet = entry.packet; marked = entry.marked } };
}

/// The packets of one queue, the front one first; contracts see them with the queue's room.
#[derive(Debug, Drop)]
pub struct Queue {
    entries: HeapCircularBuffer<Entry>,
}

impl Model for Queue {
    ghost use Rattle.fabric_parts.specs.Queues.{QueueSeen};

    ghost Value = { QueueSeen };

    ghost view = { λ queue. record { entries = queue.entries.items; room = queue.entries.capacity } };
}

impl Queue {
    /// An empty queue that holds up to `room` packets.
    pub fn new(alloc: Global, room: u32) -> Result<Queue, Memory>
        ensures entries { IfOk result (λ queue. queue.entries ≡ []) }
        ensures room { IfOk result (λ queue. queue.room ≡ room) }
    {
        let entries = HeapCircularBuffer::with_capacity(alloc, room as usize)?;
        Ok(Queue { entries })
    }

    pub fn len(&self) -> usize
        ensures { result ≡ length self.now.entries }
    {
        self.entries.len()
    }

    /// Whether there is no place for one more.
    pub fn is_full(&self) -> bool
        ensures { result ≡ (length self.now.entries == self.now.room) }
    {
        self.entries.is_full()
    }

    /// The packet that leaves the queue next.
    pub fn front(&self) -> Option<&Entry>
        ensures { option_copied result ≡ slice_get self.now.entries 0 }
    {
        self.entries.front()
    }

    /// Whether no packet is of a stream.
    pub fn has_none_of(&self, plan: &StreamPlan) -> bool
        ensures { result ≡ list_all (λ (e : Queued). not (is_of plan.now e.packet.dst e.packet.body)) self.now.entries }
    {
        self.entries
            .iter()
            .all(|entry| !is_of(plan, entry.packet.dst, &entry.packet.body))
    }

    /// A packet joins the queue; it takes no memory.
    pub fn push(&mut self, entry: Entry)
        requires { length self.old.entries < self.old.room }
        ensures entries { self.new.entries ≡ self.old.entries ++ entry ∷ [] }
        ensures room { self.new.room ≡ self.old.room }
    {
        let _ = self.entries.try_push_back(entry);
    }

    /// The front packet leaves the queue.
    pub fn pop(&mut self) -> Option<Entry>
        ensures front { MatchOption result (self.old.entries ≡ [])
            (λ entry. self.old.entries ≡ entry ∷ self.new.entries) }
        ensures none { MatchOption result (self.new.entries ≡ []) (λ entry. Unit {0}) }
        ensures room { self.new.room ≡ self.old.room }
    {
        self.entries.pop_front()
    }
}

/// Whether a packet is of a stream: samples and commands go to its consumer, statuses to its producer.
fn is_of(plan: &StreamPlan, dst: Epid, body: &Body) -> bool
    ensures { result ≡ is_of plan.now dst body.now }
{
    match body {
        Body::Samples { .. } | Body::Command(_) => dst.0 == plan.to.0,
        Body::Status(_) => dst.0 == plan.from.0,
        Body::Control(_) | Body::Management(_) => false,
    }
}
