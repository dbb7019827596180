//! At which place of the order of events a choice looks next: it passes over those that can't happen, by flags.
ghost use Rattle.std.specs.Prelude.{◌≡◌, ◌+◌, ◌*◌, ◌≤◌, IfSome, MatchOption};
ghost use Rattle.fabric_events.specs.Choosing.{IsStill, sizes_of};
ghost use Rattle.fabric_events.specs.Fabrics.{IsSound, present_of};
ghost use Rattle.fabric_events.specs.Sizes.{candidate_count, first_feed, first_loss, first_order, first_reply, first_report};

use crate::Sizes;
use crate::fabric::Fabric;

impl Fabric {
    /// The first place from k on at whose event a choice has to look; without one the number of places.
    pub(crate) fn next_place(&self, sizes: Sizes, k: usize) -> usize
        requires sound { IsSound self.now }
        requires sizes { sizes ≡ sizes_of (present_of self.now) }
        requires there { k ≤ candidate_count sizes }
        ensures from { k ≤ result }
        ensures within { result ≤ candidate_count sizes }
        ensures still { IsStill (present_of self.now) sizes k result }
    {
        if k < sizes.replies() {
            match self.next_early(sizes, k) {
                Some(place) => place,
                None => self.next_late(sizes, sizes.replies()),
            }
        } else {
            self.next_late(sizes, k)
        }
    }

    /// The first place from k on of an event of a stream or a block.
    fn next_early(&self, sizes: Sizes, k: usize) -> Option<usize>
        requires sound { IsSound self.now }
        requires sizes { sizes ≡ sizes_of (present_of self.now) }
        requires there { k ≤ first_reply sizes }
        ensures from { IfSome result (λ n. k ≤ n) }
        ensures within { IfSome result (λ n. n ≤ candidate_count sizes) }
        ensures still { MatchOption result
            (IsStill (present_of self.now) sizes k (first_reply sizes))
            (λ n. IsStill (present_of self.now) sizes k n) }
    {
        if let Some(s) = self.streams.next_sending(k) {
            return Some(s);
        }
        if let Some(place) = self.next_order(sizes, k.max(sizes.orders())) {
            return Some(place);
        }
        if let Some(place) = self.next_report(sizes, k.max(sizes.reports())) {
            return Some(place);
        }
        self.next_feed(sizes, k.max(sizes.feeds()))
    }

    /// The first place from k on of a Command that a stream might give; k is past the Enters.
    fn next_order(&self, sizes: Sizes, k: usize) -> Option<usize>
        requires sound { IsSound self.now }
        requires sizes { sizes ≡ sizes_of (present_of self.now) }
        requires from { first_order sizes ≤ k }
        ensures from { IfSome result (λ n. k ≤ n) }
        ensures within { IfSome result (λ n. n ≤ candidate_count sizes) }
        ensures still { MatchOption result
            (IsStill (present_of self.now) sizes k (first_report sizes))
            (λ n. IsStill (present_of self.now) sizes k n) }
    {
        let orders = sizes.orders();
        match self.streams.next_ordering(k - orders) {
            Some(c) => Some(orders + c),
            None => None,
        }
    }

    /// The first place from k on of a Report of a stream that owes one; k is past the Commands.
    fn next_report(&self, sizes: Sizes, k: usize) -> Option<usize>
        requires sound { IsSound self.now }
        requires sizes { sizes ≡ sizes_of (present_of self.now) }
        requires from { first_report sizes ≤ k }
        ensures from { IfSome result (λ n. k ≤ n) }
        ensures within { IfSome result (λ n. n ≤ candidate_count sizes) }
        ensures still { MatchOption result
            (IsStill (present_of self.now) sizes k (first_feed sizes))
            (λ n. IsStill (present_of self.now) sizes k n) }
    {
        let reports = sizes.reports();
        match self.streams.next_owing(k - reports) {
            Some(s) => Some(reports + s),
            None => None,
        }
    }

    /// The first place from k on of a Feed of a block that is fed; k is past the Reports.
    fn next_feed(&self, sizes: Sizes, k: usize) -> Option<usize>
        requires sound { IsSound self.now }
        requires sizes { sizes ≡ sizes_of (present_of self.now) }
        requires from { first_feed sizes ≤ k }
        requires there { k ≤ candidate_count sizes }
        ensures from { IfSome result (λ n. k ≤ n) }
        ensures within { IfSome result (λ n. n ≤ candidate_count sizes) }
        ensures still { MatchOption result
            (IsStill (present_of self.now) sizes k (first_reply sizes))
            (λ n. IsStill (present_of self.now) sizes k n) }
    {
        let feeds = sizes.feeds();
        let at = k - feeds;
        match self.feeding.next_from(at / 2) {
            Some(b) => Some(feeds + at.max(2 * b)),
            None => None,
        }
    }

    /// The first place from k on of an event of a node or a queue; without one the number of places.
    fn next_late(&self, sizes: Sizes, k: usize) -> usize
        requires sound { IsSound self.now }
        requires sizes { sizes ≡ sizes_of (present_of self.now) }
        requires past { first_reply sizes ≤ k }
        requires there { k ≤ candidate_count sizes }
        ensures from { k ≤ result }
        ensures within { result ≤ candidate_count sizes }
        ensures still { IsStill (present_of self.now) sizes k result }
    {
        let losses = sizes.losses();
        if k >= losses {
            return self.next_at_queue(sizes, k);
        }
        match self.next_at_node(sizes, k) {
            Some(place) => place,
            None => self.next_at_queue(sizes, losses),
        }
    }

    /// The first place from k on of a Reply or an Ask of a node with something to do; k is past the feeds.
    fn next_at_node(&self, sizes: Sizes, k: usize) -> Option<usize>
        requires sound { IsSound self.now }
        requires sizes { sizes ≡ sizes_of (present_of self.now) }
        requires from { first_reply sizes ≤ k }
        ensures from { IfSome result (λ n. k ≤ n) }
        ensures within { IfSome result (λ n. n ≤ candidate_count sizes) }
        ensures still { MatchOption result
            (IsStill (present_of self.now) sizes k (first_loss sizes))
            (λ n. IsStill (present_of self.now) sizes k n) }
    {
        let replies = sizes.replies();
        if let Some(x) = self.working.next_from(k - replies) {
            return Some(replies + x);
        }
        let asks = replies + sizes.nodes as usize;
        match self.working.next_from(k.saturating_sub(asks)) {
            Some(x) => Some(asks + x),
            None => None,
        }
    }

    /// The first place from k on of a Lose of a marked entry or a Hop of a queue that holds one; k is past the asks.
    fn next_at_queue(&self, sizes: Sizes, k: usize) -> usize
        requires sound { IsSound self.now }
        requires sizes { sizes ≡ sizes_of (present_of self.now) }
        requires past { first_loss sizes ≤ k }
        requires there { k ≤ candidate_count sizes }
        ensures from { k ≤ result }
        ensures within { result ≤ candidate_count sizes }
        ensures still { IsStill (present_of self.now) sizes k result }
    {
        let losses = sizes.losses();
        let hops = losses + sizes.queues as usize;
        if let Some(q) = self.queues.next_marked(k - losses) {
            return losses + q;
        }
        match self.queues.next_held(k.saturating_sub(hops)) {
            Some(q) => hops + q,
            None => sizes.count(),
        }
    }
}
