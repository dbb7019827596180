//! What each event does with the parts of a net, but for a feed and a hop.
ghost use Rattle.std.specs.Prelude.{◌≡◌, ◌+◌, ◌-◌, ◌^◌, ◌<◌, ◌≤◌, [], ◌∷◌, ◌++◌, List, true, drop, length, slice_get, IfSome, IsTrue, OnErr, OnOk, Some};
ghost use Rattle.chdr_packets.specs.declared.packet.Packet.{Packet as PacketValue};
ghost use Rattle.net_machine.specs.Conditions.{can_send};
ghost use Rattle.net_machine.specs.Nodes.{route_from};
ghost use Rattle.net_machine.specs.Plans.{first_link, plan_at};
ghost use Rattle.net_machine.specs.Queues.{link_count, queue_of};
ghost use Rattle.net_machine.specs.State.{node_in};
ghost use Rattle.net_present.specs.Kept.{now_at};
ghost use Rattle.net_present.specs.Onward.{asks_now, enters_now, enters_over_now, entries_at, loses_now, on_node_now, on_now, orders_now, replies_now, reports_now};
ghost use Rattle.net_present.specs.Present.{front_now_of};
ghost use Rattle.net_present.specs.StreamSteps.{taken_now};
ghost use Rattle.net_topology.specs.Links.{link_at};
ghost use Rattle.stream_endpoint.specs.Receiver.{is_due};
ghost use Rattle.stream_endpoint.specs.Sender.{state_of};
ghost use Rattle.fabric_lists.specs.Opened.{is_tx_stream};
ghost use Rattle.fabric_events.specs.Fabrics.{IsSound, present_of};
ghost use Rattle.fabric_parts.specs.Ready.{most_offered};
ghost use Rattle.fabric_parts.specs.Streams.{hands_now, offers_now};
ghost use Rattle.fabric_lists.specs.SitesView.{sites_of};
ghost use Rattle.fabric_lists.specs.StreamsView.{streams_of};

use crate::fabric::Fabric;
use chdr_packets::{Body, Packet};
use chdr_words::CmdOp;
use fabric_lists::stream_reads::{commands, sent, statuses};
use fabric_lists::{sites, streams};
use fabric_nodes::message;
use fabric_parts::Entry;
use plan_lookups::{named, stream_at};
use rf_base::Memory;

impl Fabric {
    /// A packet enters its first queue, that of a directed link and a channel, if there is such a link.
    pub(crate) fn enter_over(&mut self, link: Option<u16>, vc: u8, marked: bool, packet: Packet)
        requires sound { IsSound self.old }
        requires vc { vc < 2 }
        requires link { IfSome link (λ d. d < link_count self.old.wires) }
        requires room { IfSome link (λ d. length (entries_at self.old.queues.entries (queue_of d vc)) < self.old.wires.room) }
        ensures sound { IsSound self.new }
        ensures present { present_of self.new ≡ enters_over_now link vc marked packet (present_of self.old) }
    {
        match link {
            Some(d) => self
                .queues
                .enter(2 * d as usize + vc as usize, Entry { packet, marked }),
            None => {}
        }
    }

    /// The front entry of a queue is lost.
    pub(crate) fn lose(&mut self, q: usize)
        requires sound { IsSound self.old }
        requires there { q < length self.old.queues.entries }
        requires some { 0 < length (entries_at self.old.queues.entries q) }
        ensures sound { IsSound self.new }
        ensures present { present_of self.new ≡ loses_now q (entries_at self.old.queues.entries q) (present_of self.old) }
    {
        let _ = self.queues.pop(q);
    }

    /// The consumer of a stream has taken `n` packets in all, each of which was handed out.
    pub(crate) fn see(&mut self, s: usize, n: u64)
        requires sound { IsSound self.old }
        requires there { s < length self.old.streams.items }
        requires more { (now_at (streams_of self.old.streams.items).now s).taken ≤ n }
        requires handed { n + length (now_at (streams_of self.old.streams.items).now s).waiting
            ≤ (now_at (streams_of self.old.streams.items).now s).given }
        ensures sound { IsSound self.new }
        ensures present { present_of self.new ≡ on_now s (taken_now n) (present_of self.old) }
    {
        streams::take_to(&mut self.streams, s, n);
    }

    /// The first ready packet of a stream is sent.
    pub(crate) fn enter(&mut self, s: usize)
        requires sound { IsSound self.old }
        requires there { s < length self.old.streams.items }
        requires credit { IsTrue (can_send (plan_at self.old.plan s).flow
            (front_now_of (now_at (streams_of self.old.streams.items).now s)) (now_at (streams_of self.old.streams.items).now s).ready) }
        requires offered { is_tx_stream self.old.plan s ≡ true → 0 < (now_at (streams_of self.old.streams.items).now s).offered }
        requires count { (now_at (streams_of self.old.streams.items).now s).sent < 2 ^ 64 - 1 }
        requires room { IfSome (first_link self.old.wires (plan_at self.old.plan s).from)
            (λ d. length (entries_at self.old.queues.entries (queue_of d 0)) < self.old.wires.room) }
        ensures sound { IsSound self.new }
        ensures present { present_of self.new
            ≡ enters_now s (now_at (streams_of self.old.streams.items).now s).ready (present_of self.old) }
    {
        let link = self.wires.first_link(stream_at(&self.plan, s).from);
        let place = sent(self.streams.as_slice(), s);
        let marked = named::is_named_samples(&self.faults, s, place);
        let packet = streams::send(&mut self.streams, s);
        self.enter_over(link, 0, marked, packet);
    }

    /// The sender of a stream sends a command.
    pub(crate) fn order(&mut self, s: usize, op: CmdOp)
        requires sound { IsSound self.old }
        requires there { s < length self.old.streams.items }
        requires state { state_of op ≡ Some (now_at (streams_of self.old.streams.items).now s).sender.state }
        requires count { (now_at (streams_of self.old.streams.items).now s).commands < 2 ^ 64 - 1 }
        requires room { IfSome (first_link self.old.wires (plan_at self.old.plan s).from)
            (λ d. length (entries_at self.old.queues.entries (queue_of d 0)) < self.old.wires.room) }
        ensures sound { IsSound self.new }
        ensures present { present_of self.new ≡ orders_now s op (present_of self.old) }
    {
        let plan = stream_at(&self.plan, s);
        let link = self.wires.first_link(plan.from);
        let place = commands(self.streams.as_slice(), s);
        let marked = named::is_named_command(&self.faults, s, place);
        let alloc = *self.streams.allocator();
        let command = streams::order(&mut self.streams, s, op);
        self.enter_over(
            link,
            0,
            marked,
            message(alloc, 0, plan.to, Body::Command(command)),
        );
    }

    /// The receiver of a stream sends the status that is due.
    pub(crate) fn report(&mut self, s: usize)
        requires sound { IsSound self.old }
        requires there { s < length self.old.streams.items }
        requires due { IsTrue (is_due (now_at (streams_of self.old.streams.items).now s).receiver) }
        requires count { (now_at (streams_of self.old.streams.items).now s).statuses < 2 ^ 64 - 1 }
        requires room { IfSome (first_link self.old.wires (plan_at self.old.plan s).to)
            (λ d. length (entries_at self.old.queues.entries (queue_of d 1)) < self.old.wires.room) }
        ensures sound { IsSound self.new }
        ensures present { present_of self.new ≡ reports_now s (present_of self.old) }
    {
        let plan = stream_at(&self.plan, s);
        let link = self.wires.first_link(plan.to);
        let place = statuses(self.streams.as_slice(), s);
        let marked = named::is_named_status(&self.faults, s, place);
        let alloc = *self.streams.allocator();
        let status = streams::report(&mut self.streams, s);
        self.enter_over(
            link,
            1,
            marked,
            message(alloc, 1, plan.from, Body::Status(status)),
        );
    }

    /// The first request of a host enters.
    pub(crate) fn ask(&mut self, x: u16)
        requires sound { IsSound self.old }
        requires there { x < length self.old.sites.items }
        requires some { 0 < length (node_in (sites_of self.old.sites.items).nodes x).requests }
        requires count { self.old.requests < 2 ^ 64 - 1 }
        requires room { IfSome (link_at self.old.wires.links x 0)
            (λ d. length (entries_at self.old.queues.entries (queue_of d 0)) < self.old.wires.room) }
        ensures sound { IsSound self.new }
        ensures present { present_of self.new
            ≡ asks_now x (node_in (sites_of self.old.sites.items).nodes x).requests (present_of self.old) }
    {
        let link = self.wires.link_at(x, 0);
        let marked = named::is_named_request(&self.faults, self.requests);
        self.requests += 1;
        match sites::take_request(&mut self.sites, x as usize) {
            Some(packet) => {
                let has_work = sites::has_work(self.sites.as_slice(), x as usize);
                self.working.set(x as usize, has_work);
                self.enter_over(link, 0, marked, packet)
            }
            None => unreachable!(),
        }
    }

    /// The first pending answer of a node enters.
    pub(crate) fn reply(&mut self, x: u16)
        requires sound { IsSound self.old }
        requires there { x < length self.old.sites.items }
        requires some { 0 < length (node_in (sites_of self.old.sites.items).nodes x).pending }
        requires count { self.old.answers < 2 ^ 64 - 1 }
        requires room { (p : PacketValue) (rest : List PacketValue) →
            (node_in (sites_of self.old.sites.items).nodes x).pending ≡ p ∷ rest →
            IfSome (route_from self.old.wires (sites_of self.old.sites.items).nodes x p.dst)
            (λ d. length (entries_at self.old.queues.entries (queue_of d 1)) < self.old.wires.room) }
        ensures sound { IsSound self.new }
        ensures present { present_of self.new
            ≡ replies_now x (node_in (sites_of self.old.sites.items).nodes x).pending (present_of self.old) }
    {
        let link = self.first_route(x);
        let marked = named::is_named_answer(&self.faults, self.answers);
        self.answers += 1;
        match sites::take_pending(&mut self.sites, x as usize) {
            Some(packet) => {
                let has_work = sites::has_work(self.sites.as_slice(), x as usize);
                self.working.set(x as usize, has_work);
                self.enter_over(link, 1, marked, packet)
            }
            None => unreachable!(),
        }
    }

    /// The directed link by which the first pending answer of a node goes.
    fn first_route(&self, x: u16) -> Option<u16>
        requires sound { IsSound self.now }
        requires there { x < length self.now.sites.items }
        ensures route { (p : PacketValue) (rest : List PacketValue) →
            (node_in (sites_of self.now.sites.items).nodes x).pending ≡ p ∷ rest →
            result ≡ route_from self.now.wires (sites_of self.now.sites.items).nodes x p.dst }
        ensures there { IfSome result (λ d. d < link_count self.now.wires) }
    {
        match sites::first_pending(self.sites.as_slice(), x as usize) {
            Some(packet) => self.route_from(x, packet.dst),
            None => None,
        }
    }

    /// The first packet that waits at a consumer is handed out.
    pub fn hand(&mut self, s: usize) -> Option<Packet>
        requires sound { IsSound self.old }
        requires there { s < length self.old.streams.items }
        ensures packet { result ≡ slice_get (now_at (streams_of self.old.streams.items).now s).waiting 0 }
        ensures sound { IsSound self.new }
        ensures present { present_of self.new ≡ on_now s hands_now (present_of self.old) }
    {
        streams::hand(&mut self.streams, s)
    }

    /// Takes the next packet of a Tx's list.
    pub fn offer(&mut self, s: usize, packet: Packet)
        requires sound { IsSound self.old }
        requires there { s < length self.old.streams.items }
        requires tx { is_tx_stream self.old.plan s ≡ true }
        requires few { (now_at (streams_of self.old.streams.items).now s).offered < most_offered }
        requires next { slice_get (now_at (streams_of self.old.streams.items).now s).ready
            (now_at (streams_of self.old.streams.items).now s).offered ≡ Some packet }
        ensures sound { IsSound self.new }
        ensures present { present_of self.new ≡ on_now s offers_now (present_of self.old) }
    {
        streams::offer(&mut self.streams, s, packet);
    }

    /// The first answer that came to a node is taken out.
    pub fn take_answer(&mut self, x: usize) -> Option<Packet>
        requires sound { IsSound self.old }
        requires there { x < length self.old.sites.items }
        ensures answer { result ≡ slice_get (node_in (sites_of self.old.sites.items).nodes x).answers 0 }
        ensures sound { IsSound self.new }
        ensures present { present_of self.new
            ≡ on_node_now x (λ n. record n { answers = drop 1 n.answers }) (present_of self.old) }
    {
        sites::take_answer(&mut self.sites, x)
    }

    /// A request is given to a node. At `Err` nothing changes, and the packet is dropped.
    pub fn ask_request(&mut self, x: usize, packet: Packet) -> Result<(), Memory>
        requires sound { IsSound self.old }
        requires there { x < length self.old.sites.items }
        ensures sound { IsSound self.new }
        ensures ok { OnOk result (present_of self.new
            ≡ on_node_now x (λ n. record n { requests = n.requests ++ packet ∷ [] }) (present_of self.old)) }
        ensures err { OnErr result (present_of self.new ≡ present_of self.old) }
    {
        sites::ask(&mut self.sites, x, packet)?;
        self.working.set(x, true);
        Ok(())
    }
}
