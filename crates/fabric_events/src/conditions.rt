//! When each event is enabled, as far as the parts tell.
ghost use Rattle.std.specs.Prelude.{◌≡◌, ◌<◌, IsTrue, IfSome, length};
ghost use Rattle.net_machine.specs.declared.event.Event.TheVariants.{Ask, Command, Enter, Feed, Hop, Lose, Reply, Report, Seen};
ghost use Rattle.net_machine.specs.Blocks.{has_packet, is_clear, is_closed, is_drained, is_finished};
ghost use Rattle.net_machine.specs.Conditions.{can_feed, can_hop, can_lose, can_order, can_reply, has_place, has_place_from, has_place_over, is_quiet, may, none_under_way};
ghost use Rattle.net_machine.specs.Front.{front_at, queued_at};
ghost use Rattle.net_machine.specs.Nodes.{route_from};
ghost use Rattle.net_machine.specs.Plans.{block_at};
ghost use Rattle.net_machine.specs.Queues.{link_count, queue_of};
ghost use Rattle.net_machine.specs.State.{node_in};
ghost use Rattle.net_present.specs.Present.{front_now};
ghost use Rattle.fabric_events.specs.Fabrics.{IsSound, present_of};

use crate::fabric::Fabric;
use chdr_words::{CmdOp, Epid};
use fabric_lists::{sites, stream_reads};
use plan_lookups::{
    block_out, is_rx, is_tx, producer_of, stream_at, stream_from, stream_into, stream_to,
};

impl Fabric {
    /// Whether a queue has room for one more entry.
    pub(crate) fn has_place(&self, q: usize) -> bool
        requires sound { IsSound self.now }
        requires there { q < length self.now.queues.entries }
        ensures { result ≡ has_place (front_now (present_of self.now)) q }
    {
        self.queues.has_place(q)
    }

    /// Whether the queue of a directed link and a channel has, if there is such a link.
    pub(crate) fn has_place_over(&self, vc: u16, link: Option<u16>) -> bool
        requires sound { IsSound self.now }
        requires vc { vc < 2 }
        requires link { IfSome link (λ d. d < link_count self.now.wires) }
        ensures { result ≡ has_place_over (front_now (present_of self.now)) vc link }
    {
        match link {
            Some(d) => self.has_place(2 * d as usize + vc as usize),
            None => false,
        }
    }

    /// Whether the queue by which packets of an end node leave it on a channel has.
    pub(crate) fn has_place_from(&self, vc: u16, epid: Epid) -> bool
        requires sound { IsSound self.now }
        requires vc { vc < 2 }
        ensures { result ≡ has_place_from (front_now (present_of self.now)) vc epid }
    {
        self.has_place_over(vc, self.wires.first_link(epid))
    }

    /// The directed link by which a packet that begins at a node goes to an EPID.
    #[tactic(auto, using(crate::proofs::FrontLemmas::node_count))]
    pub(crate) fn route_from(&self, x: u16, dst: Epid) -> Option<u16>
        requires sound { IsSound self.now }
        requires there { x < length self.now.wires.nodes }
        ensures route { result ≡ route_from self.now.wires (present_of self.now).nodes x dst }
        ensures there { IfSome result (λ d. d < link_count self.now.wires) }
    {
        match sites::exit(self.sites.as_slice(), x as usize, dst) {
            Some(port) => self.wires.link_at(x, port),
            None => None,
        }
    }

    /// Whether nothing is ready on the stream that begins at an EPID.
    pub(crate) fn is_clear(&self, epid: Epid) -> bool
        ensures { result ≡ is_clear (front_now (present_of self.now)) epid }
    {
        match stream_from(&self.plan, epid) {
            Some(s) => stream_reads::is_clear(self.streams.as_slice(), s),
            None => false,
        }
    }

    /// Whether an Enter of this stream is enabled.
    #[tactic(auto, using(crate::proofs::FrontLemmas::front_of_stream), unfolding(net_machine::specs::Conditions::may))]
    pub(crate) fn may_enter(&self, s: usize) -> bool
        requires { IsSound self.now }
        ensures value { result ≡ may (front_now (present_of self.now)) (Enter s) }
        ensures there { IsTrue result → s < length self.now.streams.items }
    {
        s < self.streams.len()
            && stream_reads::can_send(self.streams.as_slice(), s)
            && self.has_place_from(0, stream_at(&self.plan, s).from)
    }

    /// Whether a Report of this stream is.
    #[tactic(auto, using(crate::proofs::FrontLemmas::front_of_stream), unfolding(net_machine::specs::Conditions::may))]
    pub(crate) fn may_report(&self, s: usize) -> bool
        requires { IsSound self.now }
        ensures { result ≡ may (front_now (present_of self.now)) (Report s) }
    {
        s < self.streams.len()
            && stream_reads::is_due(self.streams.as_slice(), s)
            && self.has_place_from(1, stream_at(&self.plan, s).to)
    }

    /// Whether a Seen is.
    #[tactic(auto, using(crate::proofs::FrontLemmas::front_of_stream), unfolding(net_machine::specs::Conditions::may))]
    pub(crate) fn may_see(&self, s: usize, n: u64) -> bool
        requires { IsSound self.now }
        ensures value { result ≡ may (front_now (present_of self.now)) (Seen s n) }
        ensures there { IsTrue result → s < length self.now.streams.items }
    {
        s < self.streams.len()
            && plan_lookups::ends_at_rx(&self.plan, s)
            && stream_reads::can_see(self.streams.as_slice(), s, n)
    }

    /// Whether an Ask of this node is.
    #[tactic(auto, using(crate::proofs::FrontLemmas::front_of_stream), unfolding(net_machine::specs::Conditions::may))]
    pub(crate) fn may_ask(&self, x: u16) -> bool
        requires { IsSound self.now }
        ensures { result ≡ may (front_now (present_of self.now)) (Ask x) }
    {
        (x as usize) < self.sites.len()
            && sites::first_request(self.sites.as_slice(), x as usize).is_some()
            && self.has_place_over(0, self.wires.link_at(x, 0))
    }

    /// Whether a Reply of this node is.
    #[tactic(auto, using(crate::proofs::FrontLemmas::node_count), unfolding(net_machine::specs::Conditions::may))]
    pub(crate) fn may_reply(&self, x: u16) -> bool
        requires { IsSound self.now }
        ensures { result ≡ may (front_now (present_of self.now)) (Reply x) }
    {
        if x as usize >= self.sites.len() {
            return false;
        }
        match sites::first_pending(self.sites.as_slice(), x as usize) {
            Some(packet) => self.has_place_over(1, self.route_from(x, packet.dst)),
            None => false,
        }
    }

    /// Whether a Lose of this queue is.
    #[tactic(auto, using(crate::proofs::FrontLemmas::front_of_stream), unfolding(net_machine::specs::Conditions::may))]
    pub(crate) fn may_lose(&self, q: usize) -> bool
        ensures { result ≡ may (front_now (present_of self.now)) (Lose q) }
    {
        match self.queues.front(q) {
            Some(entry) => entry.marked,
            None => false,
        }
    }
}
