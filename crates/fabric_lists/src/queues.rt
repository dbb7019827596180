ghost use Rattle.std.specs.Prelude.{◌≡◌, ◌<◌, ◌++◌, [], ◌∷◌, List, false, length, nat_lt, option_copied, replicate, slice_get, slice_set, true, IfOk, MatchOption};
ghost use Rattle.fabric_flags.specs.Set.{IsNext, NoneFrom};
ghost use Rattle.net_machine.specs.Conditions.{can_lose, none_under_way};
ghost use Rattle.net_machine.specs.Front.{Queued};
ghost use Rattle.net_present.specs.Onward.{entries_at};
ghost use Rattle.fabric_lists.specs.QueuesView.{has_none, holds, loses};

use crate::hints::Hints;
use chdr_words::Epid;
use fabric_flags::Flags;
use fabric_parts::{Entry, Queue};
use net_machine::StreamPlan;
use rf_base::Memory;
use std::alloc::Global;
use std::marker::Model;

/// The queues of a network, by their numbers; contracts see their entries, and the room of each.
///
/// Only `new` takes memory.
#[derive(Debug, Drop)]
pub struct Queues {
    queues: Vec<Queue>,
    room: u32,
    /// Which queues hold an entry.
    held: Flags,
    /// Whose front entry is marked.
    marked: Flags,
    /// Where entries of a stream are looked for first.
    hints: Hints,
}

impl Model for Queues {
    ghost use Rattle.fabric_lists.specs.QueuesView.{IsSound, QueuesSeen, view_of};

    ghost Value = { QueuesSeen };

    ghost view = { view_of };

    ghost invariant = { IsSound };
}

impl Queues {
    /// So many empty queues of this room.
    pub fn new(alloc: Global, count: usize, room: u32) -> Result<Queues, Memory>
        ensures entries { IfOk result (λ queues. queues.entries ≡ replicate count []) }
        ensures room { IfOk result (λ queues. queues.room ≡ room) }
    {
        let mut queues = Vec::with_capacity(alloc, count)?;
        for _ in 0..count {
            queues.push(Queue::new(alloc, room)?)?;
        }
        let held = Flags::new(alloc, count)?;
        let marked = Flags::new(alloc, count)?;
        Ok(Queues {
            queues,
            room,
            held,
            marked,
            hints: Hints::new(),
        })
    }

    /// How many queues there are.
    pub fn count(&self) -> usize
        ensures { result ≡ length self.now.entries }
    {
        self.queues.len()
    }

    /// Whether a queue has room for one more entry.
    pub fn has_place(&self, q: usize) -> bool
        requires { q < length self.now.entries }
        ensures { result ≡ nat_lt (length (entries_at self.now.entries q)) self.now.room }
    {
        self.queues[q].len() < self.room as usize
    }

    /// The front entry of a queue; none where there is no such queue.
    pub fn front(&self, q: usize) -> Option<&Entry>
        ensures { option_copied result ≡ slice_get (entries_at self.now.entries q) 0 }
    {
        if q < self.queues.len() {
            self.queues[q].front()
        } else {
            None
        }
    }

    /// The first queue from queue q on that holds an entry.
    pub fn next_held(&self, q: usize) -> Option<usize>
        ensures { MatchOption result (NoneFrom (holds self.now.entries) q) (IsNext (holds self.now.entries) q) }
    {
        self.held.next_from(q)
    }

    /// The first queue from queue q on whose front entry is marked.
    pub fn next_marked(&self, q: usize) -> Option<usize>
        ensures { MatchOption result (NoneFrom (loses self.now.entries) q) (IsNext (loses self.now.entries) q) }
    {
        self.marked.next_from(q)
    }

    /// Whether no entry of a stream is in a queue; it looks first where the last ones were seen, and then at the queues
    /// that hold an entry.
    pub fn has_none_of(&self, plan: &StreamPlan) -> bool
        ensures { result ≡ none_under_way self.now.entries plan.now }
    {
        if self.is_seen(plan, plan.to, 0) {
            return false;
        }
        if self.is_seen(plan, plan.from, 1) {
            return false;
        }
        let _ = self.count();
        let mut from = 0;
        while let Some(q) = self.next_held(from) {
            if !self.has_none_at(q, plan) {
                return false;
            }
            from = q + 1;
        }
        true
    }

    /// Whether an entry of a stream is in the queue where the last one to an EPID on a channel was seen.
    fn is_seen(&self, plan: &StreamPlan, epid: Epid, channel: usize) -> bool
        ensures { result ≡ true → none_under_way self.now.entries plan.now ≡ false }
    {
        let q = self.hints.queue(epid, channel);
        if q < self.count() {
            return !self.has_none_at(q, plan);
        }
        false
    }

    /// Whether none is in queue q.
    fn has_none_at(&self, q: usize, plan: &StreamPlan) -> bool
        requires { q < length self.now.entries }
        ensures { result ≡ has_none plan.now (entries_at self.now.entries q) }
    {
        self.queues[q].has_none_of(plan)
    }

    /// An entry comes into the network by a queue.
    pub fn enter(&mut self, q: usize, entry: Entry)
        requires there { q < length self.old.entries }
        requires place { length (entries_at self.old.entries q) < self.old.room }
        ensures entries { self.new.entries
            ≡ slice_set self.old.entries q (entries_at self.old.entries q ++ entry ∷ []) }
        ensures room { self.new.room ≡ self.old.room }
    {
        self.hints.enter(entry.packet.dst, q);
        self.push(q, entry);
    }

    /// An entry joins a queue.
    pub fn push(&mut self, q: usize, entry: Entry)
        requires there { q < length self.old.entries }
        requires place { length (entries_at self.old.entries q) < self.old.room }
        ensures entries { self.new.entries
            ≡ slice_set self.old.entries q (entries_at self.old.entries q ++ entry ∷ []) }
        ensures room { self.new.room ≡ self.old.room }
    {
        self.hints.go_on(entry.packet.dst, q);
        let joined = &mut self.queues[q];
        joined.push(entry);
        let is_marked = is_front_marked(joined);
        self.held.set(q, true);
        self.marked.set(q, is_marked);
    }

    /// The front entry leaves a queue.
    pub fn pop(&mut self, q: usize) -> Option<Entry>
        requires { q < length self.old.entries }
        ensures front { (e : Queued) (rest : List Queued) → entries_at self.old.entries q ≡ e ∷ rest →
            (result ≡ Some e) × (self.new.entries ≡ slice_set self.old.entries q rest) }
        ensures room { self.new.room ≡ self.old.room }
    {
        let queue = &mut self.queues[q];
        let entry = queue.pop();
        let is_held = queue.len() > 0;
        let is_marked = is_front_marked(queue);
        self.hints.leave(q, entry.as_ref(), queue.front());
        self.held.set(q, is_held);
        self.marked.set(q, is_marked);
        entry
    }
}

/// Whether the front entry of a queue is marked.
fn is_front_marked(queue: &Queue) -> bool
    ensures { result ≡ can_lose queue.now.entries }
{
    match queue.front() {
        Some(entry) => entry.marked,
        None => false,
    }
}
