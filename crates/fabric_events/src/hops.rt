//! What a hop does with the parts of a net, and with the registers that the net is lent.
ghost use Rattle.std.specs.Prelude.{◌≡◌, ◌+◌, ◌-◌, ◌^◌, ◌<◌, ◌≤◌, ℕ, List, Option, true, false, length, IfSome, IsTrue};
ghost use Rattle.block_registers.specs.Operations.{answer};
ghost use Rattle.block_registers.specs.Slots.{slots_after};
ghost use Rattle.chdr_packets.specs.Length.{wire_of};
ghost use Rattle.chdr_packets.specs.declared.packet.Body.TheVariants as body;
ghost use Rattle.chdr_words.specs.Control.{FitsControl};
ghost use Rattle.chdr_words.specs.declared.control.Control.{Control as ControlValue};
ghost use Rattle.net_topology.specs.Leads.{sent_on};
ghost use Rattle.net_topology.specs.Links.{end_of};
ghost use Rattle.net_machine.specs.Nodes.{exits_of, is_switch, own_epid, slot_at};
ghost use Rattle.net_machine.specs.Conditions.{has_way};
ghost use Rattle.net_machine.specs.Passing.{goes_on as goes_by};
ghost use Rattle.net_machine.specs.Plans.{plan_at, stream_from, stream_to};
ghost use Rattle.net_machine.specs.Queues.{link_count, queue_of};
ghost use Rattle.net_present.specs.Kept.{now_at};
ghost use Rattle.net_present.specs.Onward.{answers_host_now, arrives_now, block_on_now, block_place_now, entries_at, joins_now, on_any_now, on_now, operates_now, passes_now, pends_now, place_now};
ghost use Rattle.net_present.specs.Present.{front_now};
ghost use Rattle.net_present.specs.StreamSteps.{gets_now, gets_order_now, gets_status_now};
ghost use Rattle.std.specs.Option.{option_map_or};
ghost use Rattle.stream_endpoint.specs.Receiver.{FindsRoom};
ghost use Rattle.fabric_parts.specs.Ready.{IsShort};
ghost use Rattle.fabric_events.specs.Fabrics.{IsSound, present_of};
ghost use Rattle.fabric_lists.specs.SitesView.{sites_of, spare_seen};
ghost use Rattle.fabric_lists.specs.StreamsView.{streams_of};

use crate::fabric::Fabric;
use block_registers::{RegisterSlots, operate_fixed};
use chdr_packets::{Body, Packet};
use chdr_words::{Command, Control, Epid, Status};
use fabric_lists::{blocks, sites, streams};
use fabric_nodes::message;
use fabric_parts::Entry;
use net_topology::NodePlan;
use plan_lookups::{block_on, stream_from, stream_to};

impl Fabric {
    /// A packet becomes a pending answer of a node, and ends at once where no link leads on.
    #[tactic(auto, using(crate::proofs::FrontLemmas::node_count))]
    pub(crate) fn pend(&mut self, x: u16, packet: Packet)
        requires sound { IsSound self.old }
        requires there { x < length self.old.wires.nodes }
        requires spare { 0 < (spare_seen (sites_of self.old.sites.items).spares x).pending }
        ensures sound { IsSound self.new }
        ensures present { present_of self.new ≡ pends_now x packet (present_of self.old) }
    {
        match self.route_from(x, packet.dst) {
            Some(_) => {
                sites::pend(&mut self.sites, x as usize, packet);
                self.working.set(x as usize, true);
            }
            None => {}
        }
    }

    /// An acknowledgement or a returned packet comes to a node, where only a host expects it.
    #[tactic(auto, using(crate::proofs::FrontLemmas::node_count))]
    fn answer_host(&mut self, x: u16, packet: Packet)
        requires sound { IsSound self.old }
        requires there { x < length self.old.wires.nodes }
        requires spare { 0 < (spare_seen (sites_of self.old.sites.items).spares x).answers }
        ensures sound { IsSound self.new }
        ensures present { present_of self.new ≡ answers_host_now x packet (present_of self.old) }
    {
        if self.wires.is_host(x) {
            sites::answer(&mut self.sites, x as usize, packet);
        }
    }

    /// Samples come to the receiver of the stream that ends at a node, if there is one.
    #[tactic(auto, using(crate::proofs::FrontLemmas::node_count))]
    fn get(&mut self, x: u16, packet: Packet)
        requires sound { IsSound self.old }
        requires there { x < length self.old.wires.nodes }
        requires fits { IfSome (stream_to self.old.plan (own_epid self.old.wires x)) (λ s.
            FindsRoom (plan_at self.old.plan s).flow (now_at (streams_of self.old.streams.items).now s).receiver packet.seq (wire_of packet)
            × IsShort packet × ((now_at (streams_of self.old.streams.items).now s).given < 2 ^ 64 - 1)) }
        ensures sound { IsSound self.new }
        ensures present { present_of self.new
            ≡ on_any_now (stream_to self.old.plan (own_epid self.old.wires x)) (gets_now packet) (present_of self.old) }
    {
        match stream_to(&self.plan, self.wires.own_epid(x)) {
            Some(s) => streams::arrive(&mut self.streams, s, packet),
            None => {}
        }
    }

    /// A command comes to the receiver of the stream that ends at a node, if there is one.
    #[tactic(auto, using(crate::proofs::FrontLemmas::node_count))]
    fn get_order(&mut self, x: u16, command: &Command)
        requires sound { IsSound self.old }
        requires there { x < length self.old.wires.nodes }
        requires count { IfSome (stream_to self.old.plan (own_epid self.old.wires x)) (λ s.
            (now_at (streams_of self.old.streams.items).now s).cuts < 2 ^ 64 - 1) }
        ensures sound { IsSound self.new }
        ensures present { present_of self.new
            ≡ on_any_now (stream_to self.old.plan (own_epid self.old.wires x)) (gets_order_now command.now) (present_of self.old) }
    {
        match stream_to(&self.plan, self.wires.own_epid(x)) {
            Some(s) => streams::obey(&mut self.streams, s, command),
            None => {}
        }
    }

    /// A status comes to the sender of the stream that begins at a node, if there is one.
    #[tactic(auto, using(crate::proofs::FrontLemmas::node_count))]
    fn get_status(&mut self, x: u16, status: &Status)
        requires sound { IsSound self.old }
        requires there { x < length self.old.wires.nodes }
        ensures sound { IsSound self.new }
        ensures present { present_of self.new
            ≡ option_map_or (λ s. on_now s (gets_status_now (plan_at self.old.plan s) status.now) (present_of self.old))
            (stream_from self.old.plan (own_epid self.old.wires x)) (present_of self.old) }
    {
        match stream_from(&self.plan, self.wires.own_epid(x)) {
            Some(s) => streams::hear(&mut self.streams, s, status),
            None => {}
        }
    }

    /// The acknowledgement of a request at the port of an endpoint's block.
    #[tactic(auto, unfolding(block_registers::specs::Slots::place_of, block_registers::specs::Slots::slots_after))]
    fn answered_by_block<B: RegisterSlots>(
        &self,
        epid: Epid,
        request: &Control,
        banks: &mut B,
    ) -> Control
        requires sound { IsSound self.now }
        requires fits { FitsControl request.now }
        ensures answer { result ≡ answer epid
            (block_place_now (present_of self.now) (block_on_now (present_of self.now) epid)) request.now }
        ensures banks { B.slots banks.new ≡ B.slots banks.old }
    {
        match block_on(&self.plan, epid) {
            Some(b) => {
                let words = blocks::registers(self.blocks.as_slice(), b);
                operate_fixed(epid, &words, request)
            }
            None => banks.operate(epid, None, request),
        }
    }

    /// The acknowledgement of a request at a node: by its block, by its bank, or by nothing.
    #[tactic(auto, unfolding(block_registers::specs::Slots::place_of, block_registers::specs::Slots::slots_after))]
    fn answered<B: RegisterSlots>(&self, x: u16, request: &Control, banks: &mut B) -> Control
        requires sound { IsSound self.now }
        requires there { x < length self.now.wires.nodes }
        requires fits { FitsControl request.now }
        ensures answer { result ≡ answer (own_epid self.now.wires x)
            (place_now (record { present = present_of self.now; banks = B.slots banks.old }) x request.now.dst_port) request.now }
        ensures banks { B.slots banks.new
            ≡ slots_after (B.slots banks.old) (slot_at self.now.wires x request.now.dst_port) request.now }
    {
        match self.wires.node(x) {
            NodePlan::Endpoint { epid, .. } => {
                if request.dst_port == 1023 {
                    self.answered_by_block(epid, request, banks)
                } else {
                    banks.operate(epid, self.wires.slot_at(x, request.dst_port), request)
                }
            }
            NodePlan::Host { .. } | NodePlan::Crossbar { .. } | NodePlan::Adapter => {
                banks.operate(self.wires.own_epid(x), None, request)
            }
        }
    }

    /// A control request is operated at a node, and its acknowledgement is to leave.
    #[tactic(auto, using(crate::proofs::FrontLemmas::node_count))]
    fn operate<B: RegisterSlots>(&mut self, x: u16, request: &Control, banks: &mut B)
        requires sound { IsSound self.old }
        requires there { x < length self.old.wires.nodes }
        requires fits { FitsControl request.now }
        requires spare { 0 < (spare_seen (sites_of self.old.sites.items).spares x).pending }
        ensures sound { IsSound self.new }
        ensures present { present_of self.new
            ≡ (operates_now x request.now (record { present = present_of self.old; banks = B.slots banks.old })).present }
        ensures banks { B.slots banks.new
            ≡ (operates_now x request.now (record { present = present_of self.old; banks = B.slots banks.old })).banks }
    {
        let alloc = *self.sites.allocator();
        let answer = self.answered(x, request, banks);
        self.pend(x, message(alloc, 1, request.src, Body::Control(answer)));
    }

    /// A packet came to an end node.
    fn arrive<B: RegisterSlots>(&mut self, x: u16, packet: Packet, banks: &mut B)
        requires sound { IsSound self.old }
        requires there { x < length self.old.wires.nodes }
        requires pending { 0 < (spare_seen (sites_of self.old.sites.items).spares x).pending }
        requires answers { 0 < (spare_seen (sites_of self.old.sites.items).spares x).answers }
        requires samples { (time : Option ℕ) (payload : List ℕ) → packet.body ≡ body.Samples time payload →
            IfSome (stream_to self.old.plan (own_epid self.old.wires x)) (λ s.
            FindsRoom (plan_at self.old.plan s).flow (now_at (streams_of self.old.streams.items).now s).receiver packet.seq (wire_of packet)
            × IsShort packet × ((now_at (streams_of self.old.streams.items).now s).given < 2 ^ 64 - 1)) }
        requires count { IfSome (stream_to self.old.plan (own_epid self.old.wires x)) (λ s.
            (now_at (streams_of self.old.streams.items).now s).cuts < 2 ^ 64 - 1) }
        requires control { (c : ControlValue) → packet.body ≡ body.Control c → FitsControl c }
        ensures sound { IsSound self.new }
        ensures present { present_of self.new ≡ (arrives_now x packet packet.body
            (record { present = present_of self.old; banks = B.slots banks.old })).present }
        ensures banks { B.slots banks.new ≡ (arrives_now x packet packet.body
            (record { present = present_of self.old; banks = B.slots banks.old })).banks }
    {
        match &packet.body {
            Body::Samples { .. } => self.get(x, packet),
            Body::Command(command) => self.get_order(x, command),
            Body::Status(status) => self.get_status(x, status),
            Body::Control(control) => {
                if control.ack {
                    self.answer_host(x, packet)
                } else {
                    self.operate(x, control, banks)
                }
            }
            Body::Management(_) => self.answer_host(x, packet),
        }
    }

    /// The directed link over which the table of a crossbar or an adapter sends a packet on that came over d.
    #[tactic(auto, using(crate::proofs::FrontLemmas::node_count))]
    fn next_link(&self, d: u16, dst: Epid) -> Option<u16>
        requires sound { IsSound self.now }
        requires there { d < link_count self.now.wires }
        requires switch { is_switch self.now.wires (end_of self.now.wires.links d) ≡ true }
        ensures value { result ≡ sent_on self.now.wires (exits_of (sites_of self.now.sites.items).nodes) dst d }
        ensures there { IfSome result (λ e. e < link_count self.now.wires) }
    {
        let (x, _) = self.wires.end_at(d);
        match sites::exit(self.sites.as_slice(), x as usize, dst) {
            Some(port) => self.wires.turned_to(d, port),
            None => None,
        }
    }

    /// An entry goes on by the table of a crossbar or an adapter, and comes to an end node.
    #[tactic(auto, using(crate::proofs::HopLemmas::hop_lemmas))]
    pub(crate) fn go_on<B: RegisterSlots>(&mut self, d: u16, vc: u8, entry: Entry, banks: &mut B)
        requires sound { IsSound self.old }
        requires there { d < link_count self.old.wires }
        requires vc { vc < 2 }
        requires way { IsTrue (has_way (front_now (present_of self.old)) vc
            (goes_by self.old.wires (sites_of self.old.sites.items).nodes d entry.packet).outcome) }
        requires pending { 0 < (spare_seen (sites_of self.old.sites.items).spares (end_of self.old.wires.links d)).pending }
        requires answers { 0 < (spare_seen (sites_of self.old.sites.items).spares (end_of self.old.wires.links d)).answers }
        requires samples { (time : Option ℕ) (payload : List ℕ) → is_switch self.old.wires (end_of self.old.wires.links d) ≡ false →
            entry.packet.body ≡ body.Samples time payload →
            IfSome (stream_to self.old.plan (own_epid self.old.wires (end_of self.old.wires.links d))) (λ s.
            FindsRoom (plan_at self.old.plan s).flow (now_at (streams_of self.old.streams.items).now s).receiver entry.packet.seq (wire_of entry.packet)
            × IsShort entry.packet × ((now_at (streams_of self.old.streams.items).now s).given < 2 ^ 64 - 1)) }
        requires count { IfSome (stream_to self.old.plan (own_epid self.old.wires (end_of self.old.wires.links d))) (λ s.
            (now_at (streams_of self.old.streams.items).now s).cuts < 2 ^ 64 - 1) }
        requires control { (c : ControlValue) → entry.packet.body ≡ body.Control c → FitsControl c }
        ensures sound { IsSound self.new }
        ensures present { present_of self.new ≡ (passes_now (end_of self.old.wires.links d) vc entry
            (goes_by self.old.wires (sites_of self.old.sites.items).nodes d entry.packet).outcome
            (record { present = present_of self.old; banks = B.slots banks.old })).present }
        ensures banks { B.slots banks.new ≡ (passes_now (end_of self.old.wires.links d) vc entry
            (goes_by self.old.wires (sites_of self.old.sites.items).nodes d entry.packet).outcome
            (record { present = present_of self.old; banks = B.slots banks.old })).banks }
    {
        let (x, _) = self.wires.end_at(d);
        if self.wires.is_switch(x) {
            match self.next_link(d, entry.packet.dst) {
                Some(e) => self.queues.push(2 * e as usize + vc as usize, entry),
                None => {}
            }
        } else {
            self.arrive(x, entry.packet, banks)
        }
    }
}
