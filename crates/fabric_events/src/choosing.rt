//! Which events can happen, and which is chosen.
ghost use Rattle.std.specs.Prelude.{◌≡◌, ◌<◌, ◌≤◌, ◌^◌, length, slice_get, IfSome, MatchOption};
ghost use Rattle.net_machine.specs.Conditions.{may};
ghost use Rattle.net_present.specs.Present.{front_now};
ghost use Rattle.fabric_events.specs.Choosing.{IsStill, chosen_now, doable_list, doable_now, is_handed, is_offered, seed_now, sizes_of};
ghost use Rattle.fabric_events.specs.Fabrics.{IsSound, present_of};
ghost use Rattle.fabric_events.specs.Sizes.{candidate_count, first_loss, first_reply};

use crate::Sizes;
use crate::fabric::Fabric;
use fabric_lists::stream_reads;
use net_machine::{Event, Seed};

impl Fabric {
    /// Whether an event is enabled.
    pub fn enabled(&self, event: Event) -> bool
        requires { IsSound self.now }
        ensures { result ≡ may (front_now (present_of self.now)) event }
    {
        match event {
            Event::Enter(s) => self.may_enter(s as usize),
            Event::Command(s, op) => self.may_command(s as usize, op),
            Event::Report(s) => self.may_report(s as usize),
            Event::Seen(s, n) => self.may_see(s as usize, n),
            Event::Feed(b, i) => self.may_feed(b as usize, i as usize),
            Event::Ask(x) => self.may_ask(x),
            Event::Reply(x) => self.may_reply(x),
            Event::Lose(q) => self.may_lose(q as usize),
            Event::Hop(q) => self.may_hop(q),
        }
    }

    /// Whether an event can happen: besides, the packet that a Tx sends was offered, and those that are taken
    /// were handed out.
    #[tactic(auto, unfolding(crate::specs::Choosing::doable_now))]
    pub fn doable(&self, event: Event) -> bool
        requires { IsSound self.now }
        ensures { result ≡ doable_now (present_of self.now) event }
    {
        match event {
            Event::Enter(s) => self.may_enter(s as usize) && self.is_offered(s as usize),
            Event::Seen(s, n) => self.may_see(s as usize, n) && self.is_handed(s as usize, n),
            Event::Command(s, op) => self.may_command(s as usize, op),
            Event::Report(s) => self.may_report(s as usize),
            Event::Feed(b, i) => self.may_feed(b as usize, i as usize),
            Event::Ask(x) => self.may_ask(x),
            Event::Reply(x) => self.may_reply(x),
            Event::Lose(q) => self.may_lose(q as usize),
            Event::Hop(q) => self.may_hop(q),
        }
    }

    /// Whether the next packet of a stream was offered, if a Tx makes it.
    #[tactic(auto, using(crate::proofs::FrontLemmas::tx_there))]
    fn is_offered(&self, s: usize) -> bool
        requires sound { IsSound self.now }
        requires there { s < length self.now.streams.items }
        ensures { result ≡ is_offered (present_of self.now) s }
    {
        !stream_reads::is_tx(self.streams.as_slice(), s)
            || stream_reads::offered(self.streams.as_slice(), s) > 0
    }

    /// Whether n packets of a stream were handed out.
    fn is_handed(&self, s: usize, n: u64) -> bool
        requires { s < length self.now.streams.items }
        ensures { result ≡ is_handed (present_of self.now) s n }
    {
        stream_reads::is_handed(self.streams.as_slice(), s, n)
    }

    /// How many streams, blocks, nodes and queues there are.
    #[tactic(auto, using(crate::proofs::FrontLemmas::node_count))]
    fn sizes(&self) -> Sizes
        requires { IsSound self.now }
        ensures { result ≡ sizes_of (present_of self.now) }
    {
        let tree = self.wires.plan();
        Sizes {
            streams: self.streams.len() as u16,
            blocks: self.plan.blocks.len() as u16,
            nodes: tree.nodes.len() as u16,
            queues: 4 * tree.links.len() as u16,
        }
    }
}

impl Fabric {
    /// How many events can happen, takings left out.
    fn count_doable(&self, sizes: Sizes) -> usize
        requires sound { IsSound self.now }
        requires sizes { sizes ≡ sizes_of (present_of self.now) }
        ensures { result ≡ length (doable_list (present_of self.now)) }
    {
        let mut count = 0;
        let mut k = self.next_place(sizes, 0);
        while k < sizes.count() {
            if self.doable(sizes.event(k)) {
                count += 1;
            }
            k = self.next_place(sizes, k + 1);
        }
        count
    }

    /// The event at a place among those that can happen.
    fn nth_doable(&self, sizes: Sizes, place: usize) -> Option<Event>
        requires sound { IsSound self.now }
        requires sizes { sizes ≡ sizes_of (present_of self.now) }
        ensures { result ≡ slice_get (doable_list (present_of self.now)) place }
    {
        let mut passed = 0;
        let mut k = self.next_place(sizes, 0);
        while k < sizes.count() {
            let event = sizes.event(k);
            if self.doable(event) {
                if passed == place {
                    return Some(event);
                }
                passed += 1;
            }
            k = self.next_place(sizes, k + 1);
        }
        None
    }

    /// The event that a seed chooses among those that can happen.
    ///
    /// It looks at those of streams that may have one by themselves, of blocks that are fed, of nodes with something to
    /// do, and of queues that hold or lose an entry.
    #[tactic(auto, using(crate::proofs::ChoosingLemmas::zero_stays))]
    pub fn choose(&self, seed: &mut Seed) -> Option<Event>
        requires { IsSound self.now }
        ensures event { result ≡ chosen_now seed.old.0 (present_of self.now) }
        ensures seed { seed.new.0 ≡ seed_now seed.old.0 (present_of self.now) }
    {
        let sizes = self.sizes();
        if seed.0 == 0 {
            return self.nth_doable(sizes, 0);
        }
        let count = self.count_doable(sizes);
        if count == 0 {
            return None;
        }
        *seed = seed.next();
        self.nth_doable(sizes, seed.place(count))
    }
}
