ghost use Rattle.std.specs.Prelude.{◌≡◌, ◌==◌, ◌+◌, ◌-◌, ◌^◌, ◌<◌, ◌≤◌, [], ◌∷◌, List, true, false, not, max, length, drop, take, sum, slice_get, option_copied, IsTrue, IfOk, IfSome, is_some, All, Some, nat_lt};
ghost use Rattle.block_library.specs.Producer.{FitsPlan};
ghost use Rattle.chdr_packets.specs.Length.{wire_of};
ghost use Rattle.chdr_packets.specs.declared.packet.Packet.{Packet as PacketValue};
ghost use Rattle.chdr_words.specs.Command.{FitsCommand};
ghost use Rattle.chdr_words.specs.Status.{FitsStatus};
ghost use Rattle.circular_buffer.specs.Buffer.{buffer};
ghost use Rattle.net_machine.specs.Blocks.{drained_by, has_packet};
ghost use Rattle.stream_endpoint.specs.Flow.{IsValid};
ghost use Rattle.stream_endpoint.specs.InEnd.{kept_receiver, status_of};
ghost use Rattle.stream_endpoint.specs.Orders.{may_order};
ghost use Rattle.stream_endpoint.specs.OutEnd.{command_of};
ghost use Rattle.stream_endpoint.specs.Receiver.{FindsRoom, is_due, takes};
ghost use Rattle.stream_endpoint.specs.Sender.{next_number, state_of};
ghost use Rattle.net_machine.specs.Conditions.{can_see, can_send, is_stuck};
ghost use Rattle.net_machine.specs.Streams.{most, numbered};
ghost use Rattle.net_present.specs.Present.{front_now_of};
ghost use Rattle.net_present.specs.StreamSteps.{cuts_by, sum_now, fed_now, gets_now, gets_order_now, gets_status_now, readies_now, receiving_now, sending_now, sends_first_now, sends_order_now, sends_status_now, taken_now};
ghost use Rattle.fabric_parts.specs.Ready.{IsShort, most_offered, ready_first};
ghost use Rattle.fabric_parts.specs.Streams.{begun_now, hands_now, offers_now, on_stream, tally_now, undrained_now};

use crate::Source;
use block_library::TxPlan;
use chdr_packets::{Packet, PacketList};
use chdr_words::{CmdOp, Command, Status};
use circular_buffer::HeapCircularBuffer;
use net_machine::{StreamEnd, StreamPlan, Tally};
use rf_base::Memory;
use std::alloc::Global;
use std::marker::Model;
use stream_endpoint::{Arrived, Count, InEnd, OutEnd, OutState};

/// A stream: both its ends, what its producer has for it, and what its consumer hasn't taken.
///
/// Only `new` takes memory.
#[derive(Debug, Drop)]
pub struct StreamPart {
    plan: StreamPlan,
    source: Source,
    out: OutEnd,
    into: InEnd,
    sent: u64,
    given: u64,
    taken: u64,
    /// The wire sizes of the given packets that aren't taken.
    untaken: HeapCircularBuffer<u32>,
    /// The given packets that were neither handed out nor fed to a block.
    waiting: HeapCircularBuffer<Packet>,
    statuses: u64,
    commands: u64,
    /// How many RESYNC commands arrived.
    cuts: u64,
    /// The most that was outstanding.
    peak: Count,
}

impl Model for StreamPart {
    ghost use Rattle.fabric_parts.specs.Streams.{StreamSeen};

    ghost Value = { StreamSeen };

    ghost use Rattle.fabric_parts.specs.StreamView.{IsSound, view_of};

    ghost view = { view_of };

    ghost invariant = { IsSound };
}

impl StreamPart {
    /// A stream as it begins, with a Tx's plan where a Tx makes its packets.
    pub fn new(alloc: Global, plan: &StreamPlan, tx: Option<TxPlan>) -> Result<StreamPart, Memory>
        requires flow { IsValid plan.now.flow }
        requires tx { IfSome tx FitsPlan }
        ensures plan { IfOk result (λ s. s.plan ≡ plan.now) }
        ensures tx { IfOk result (λ s. s.is_tx ≡ is_some tx) }
        ensures now { IfOk result (λ s. s.now ≡ begun_now plan.now (ready_first tx)) }
    {
        let source = Source::new(alloc, tx)?;
        let room = plan.flow.cap_packets as usize;
        let untaken = HeapCircularBuffer::with_capacity(alloc, room)?;
        let waiting = HeapCircularBuffer::with_capacity(alloc, room)?;
        Ok(StreamPart {
            plan: *plan,
            source,
            out: OutEnd::new(plan.from, &plan.flow, plan.start, 0, plan.policy),
            into: InEnd::new(plan.to, &plan.flow, plan.start, 0),
            sent: 0,
            given: 0,
            taken: 0,
            untaken,
            waiting,
            statuses: 0,
            commands: 0,
            cuts: 0,
            peak: Count::none(),
        })
    }

    /// The first ready packet is sent: it gets its channel, its number and its consumer.
    pub fn send(&mut self) -> Packet
        requires credit { IsTrue (can_send self.old.plan.flow (front_now_of self.old.now) self.old.now.ready) }
        requires offered { self.old.is_tx ≡ true → 0 < self.old.now.offered }
        requires count { self.old.now.sent < 2 ^ 64 - 1 }
        ensures { (p : PacketValue) (rest : List PacketValue) → self.old.now.ready ≡ p ∷ rest →
            (self.new ≡ on_stream (sends_first_now p rest) self.old)
            × (result ≡ numbered self.old.plan (next_number self.old.now.sender) p) }
    {
        let mut packet = self.source.pop();
        packet.vc = 0;
        packet.seq = self.out.sent(packet.wire_size());
        packet.dst = self.plan.to;
        self.sent += 1;
        self.peak = most(self.peak, self.out.outstanding());
        packet
    }

    /// A command is sent.
    pub fn order(&mut self, op: CmdOp) -> Command
        requires state { state_of op ≡ Some self.old.now.sender.state }
        requires count { self.old.now.commands < 2 ^ 64 - 1 }
        ensures answer { result ≡ command_of op (sending_now self.old.plan self.old.now) }
        ensures fits { FitsCommand result }
        ensures next { self.new ≡ on_stream (sends_order_now op) self.old }
    {
        self.commands += 1;
        self.out.command(op)
    }

    /// The status that is due is sent.
    pub fn report(&mut self) -> Status
        requires due { IsTrue (is_due self.old.now.receiver) }
        requires count { self.old.now.statuses < 2 ^ 64 - 1 }
        ensures answer { result ≡ status_of (receiving_now self.old.plan self.old.now) }
        ensures fits { FitsStatus result }
        ensures next { self.new ≡ on_stream sends_status_now self.old }
    {
        self.statuses += 1;
        self.into.report()
    }

    /// A packet comes to the receiver.
    pub fn arrive(&mut self, packet: Packet)
        requires room { FindsRoom self.old.plan.flow self.old.now.receiver packet.seq (wire_of packet) }
        requires short { IsShort packet }
        requires count { self.old.now.given < 2 ^ 64 - 1 }
        ensures { self.new ≡ on_stream (gets_now packet) self.old }
    {
        let wire = packet.wire_size();
        match self.into.arrive(packet.seq, wire) {
            Arrived::Kept => {
                self.given += 1;
                let _ = self.untaken.try_push_back(wire);
                let _ = self.waiting.try_push_back(packet);
            }
            Arrived::Gap { .. } | Arrived::Discarded => {}
        }
    }

    /// A command comes to the receiver.
    pub fn obey(&mut self, command: &Command)
        requires { self.old.now.cuts < 2 ^ 64 - 1 }
        ensures { self.new ≡ on_stream (gets_order_now command.now) self.old }
    {
        self.into.command(command);
        self.cuts = cuts_by(command.op, self.cuts);
    }

    /// A status comes to the sender.
    pub fn hear(&mut self, status: &Status)
        ensures { self.new ≡ on_stream (gets_status_now self.old.plan status.now) self.old }
    {
        self.out.status(status);
    }

    /// The consumer has taken `n` packets in all, each of which was handed out.
    pub fn take_to(&mut self, n: u64)
        requires more { self.old.now.taken ≤ n }
        requires handed { n + length self.old.now.waiting ≤ self.old.now.given }
        ensures { self.new ≡ on_stream (taken_now n) self.old }
    {
        take(&mut self.into, &mut self.untaken, n - self.taken);
        self.taken = n;
    }

    /// The first packet that waits is fed to a block, and so taken.
    pub fn feed(&mut self) -> Packet
        requires { 0 < length self.old.now.waiting }
        ensures packet { slice_get self.old.now.waiting 0 ≡ Some result }
        ensures next { self.new ≡ on_stream fed_now self.old }
    {
        take(&mut self.into, &mut self.untaken, 1);
        self.taken += 1;
        match self.waiting.pop_front() {
            Some(packet) => packet,
            None => unreachable!(),
        }
    }

    /// The first packet that waits is handed out.
    pub fn hand(&mut self) -> Option<Packet>
        ensures packet { result ≡ slice_get self.old.now.waiting 0 }
        ensures next { self.new ≡ on_stream hands_now self.old }
    {
        self.waiting.pop_front()
    }

    /// Takes the next packet of a Tx's list.
    pub fn offer(&mut self, packet: Packet)
        requires tx { self.old.is_tx ≡ true }
        requires few { self.old.now.offered < most_offered }
        requires next { slice_get self.old.now.ready self.old.now.offered ≡ Some packet }
        ensures { self.new ≡ on_stream offers_now self.old }
    {
        self.source.offer(packet);
    }

    /// What a block gave becomes ready, where nothing is; the list is moved as it is.
    pub fn fill(&mut self, packets: PacketList)
        requires tx { self.old.is_tx ≡ false }
        requires none { self.old.now.ready ≡ [] }
        requires short { All IsShort packets }
        ensures { self.new ≡ on_stream (readies_now packets) self.old }
    {
        self.source.fill(packets);
    }

    /// Whether the first ready packet may be sent, but for room in its queue.
    pub fn can_send(&self) -> bool
        ensures { result ≡ can_send self.now.plan.flow (front_now_of self.now.now) self.now.now.ready }
    {
        match self.source.first_wire() {
            Some(wire) => self.out.may_send(wire),
            None => false,
        }
    }

    /// Whether the producer can't go on, where it is finished (`closed`) or not.
    pub fn is_stuck(&self, closed: bool) -> bool
        ensures { result ≡ is_stuck self.now.plan.flow (front_now_of self.now.now) closed self.now.now.ready }
    {
        match self.source.first_wire() {
            Some(wire) => !self.plan.flow.has_room(self.out.outstanding(), wire),
            None => closed,
        }
    }

    /// Whether a command may be sent, but for room in its queue, where the stream is quiet or not and
    /// its producer is finished or not.
    pub fn may_order(&self, op: CmdOp, quiet: bool, closed: bool) -> bool
        ensures { result ≡ may_order self.now.now.sender quiet
            (is_stuck self.now.plan.flow (front_now_of self.now.now) closed self.now.now.ready) op }
    {
        match op {
            CmdOp::Init | CmdOp::Resync => {
                self.out.may_command(op) && (!self.out.commanded() || quiet)
            }
            CmdOp::Ping => {
                self.out.may_command(op) && quiet && !self.out.covered() && self.is_stuck(closed)
            }
            CmdOp::Other(_) => false,
        }
    }

    /// Whether a status is to be sent.
    pub fn is_due(&self) -> bool
        ensures { result ≡ is_due self.now.now.receiver }
    {
        self.into.due()
    }

    /// Whether `n` is more than was taken, and no more than was given.
    pub fn can_see(&self, n: u64) -> bool
        ensures { result ≡ can_see (front_now_of self.now.now) n }
    {
        self.taken < n && n <= self.given
    }

    /// Whether a packet was given that isn't taken.
    pub fn has_untaken(&self) -> bool
        ensures { result ≡ nat_lt self.now.now.taken self.now.now.given }
    {
        self.taken < self.given
    }

    /// Whether nothing is ready.
    pub fn is_clear(&self) -> bool
        ensures { result ≡ not (has_packet self.now.now.ready) }
    {
        self.source.is_empty()
    }

    /// Whether all that was given is taken.
    pub fn is_taken(&self) -> bool
        ensures { result ≡ (self.now.now.taken == self.now.now.given) }
    {
        self.taken == self.given
    }

    /// Whether the stream is drained, whose producer is finished or not.
    pub fn is_drained(&self, finished: bool) -> bool
        ensures { result ≡ drained_by finished (front_now_of self.now.now) }
    {
        finished
            && self.source.is_empty()
            && self.out.state() == OutState::Running
            && self.out.covered()
            && self.taken == self.given
    }

    /// The stream as it was planned.
    pub fn plan(&self) -> &StreamPlan
        ensures same { result.now ≡ self.now.plan }
        ensures valid { IsValid self.now.plan.flow }
    {
        &self.plan
    }

    /// Whether a Tx makes its packets.
    pub fn is_tx(&self) -> bool
        ensures { result ≡ self.now.is_tx }
    {
        self.source.is_tx()
    }

    /// The next packet of a Tx's list that wasn't offered.
    pub fn unoffered(&self) -> Result<Option<Packet>, Memory>
        requires { self.now.is_tx ≡ true }
        ensures { IfOk result (λ packet. packet ≡ slice_get self.now.now.ready self.now.now.offered) }
    {
        self.source.unoffered()
    }

    /// How many packets were offered and not sent.
    pub fn offered(&self) -> usize
        ensures value { result ≡ self.now.now.offered }
        ensures few { result ≤ most_offered }
    {
        self.source.offered()
    }

    /// The first packet that was neither handed out nor fed to a block.
    pub fn first_waiting(&self) -> Option<&Packet>
        ensures { option_copied result ≡ slice_get self.now.now.waiting 0 }
    {
        self.waiting.front()
    }

    /// How many of the given packets were handed out or fed to a block.
    pub fn handed(&self) -> u64
        ensures value { result + length self.now.now.waiting ≡ self.now.now.given }
        ensures taken { self.now.now.taken ≤ result }
    {
        self.given - self.waiting.len() as u64
    }

    /// How many packets were sent.
    pub fn sent(&self) -> u64
        ensures { result ≡ self.now.now.sent }
    {
        self.sent
    }

    /// How many packets were given.
    pub fn given(&self) -> u64
        ensures { result ≡ self.now.now.given }
    {
        self.given
    }

    /// How many of the given packets are taken.
    pub fn taken(&self) -> u64
        ensures { result ≡ self.now.now.taken }
    {
        self.taken
    }

    /// How many statuses were sent.
    pub fn statuses(&self) -> u64
        ensures { result ≡ self.now.now.statuses }
    {
        self.statuses
    }

    /// How many commands were sent.
    pub fn commands(&self) -> u64
        ensures { result ≡ self.now.now.commands }
    {
        self.commands
    }

    /// What the stream did.
    pub fn tally(&self) -> Tally
        requires { self.now.now.cuts < 2 ^ 64 - 1 }
        ensures { result ≡ tally_now self.now.now }
    {
        Tally {
            sent: self.sent,
            delivered: self.taken,
            acked: acked(self.sent, self.out.outstanding()),
            epochs: self.cuts + 1,
            peak_bytes: self.peak.bytes,
            peak_packets: self.peak.packets,
        }
    }

    /// How the stream stands, if it isn't drained.
    pub fn undrained(&self) -> StreamEnd
        ensures { result ≡ undrained_now self.now.now }
    {
        match self.into.broken() {
            Some(gap) => StreamEnd::Broken {
                expected: gap.expected,
                got: gap.got,
            },
            None => StreamEnd::Undrained {
                sent: self.sent,
                acked: acked(self.sent, self.out.outstanding()),
            },
        }
    }
}

/// How many packets of those that were sent aren't outstanding.
fn acked(sent: u64, outstanding: Count) -> u64
    ensures { result ≡ sent - outstanding.packets }
{
    sent.saturating_sub(outstanding.packets)
}

/// The greater of both counts, in packets and in bytes.
fn most(a: Count, b: Count) -> Count
    ensures { result ≡ most a b }
{
    Count {
        packets: a.packets.max(b.packets),
        bytes: a.bytes.max(b.bytes),
    }
}

/// How many RESYNC commands arrived, once one of this operation did.
fn cuts_by(op: CmdOp, cuts: u64) -> u64
    requires { cuts < 2 ^ 64 - 1 }
    ensures { result ≡ cuts_by op cuts }
{
    match op {
        CmdOp::Resync => cuts + 1,
        CmdOp::Init | CmdOp::Ping | CmdOp::Other(_) => cuts,
    }
}

/// So many of the untaken packets are taken.
fn take(into: &mut InEnd, untaken: &mut HeapCircularBuffer<u32>, count: u64)
    requires count { count ≤ length untaken.old.items }
    requires few { length untaken.old.items < 2 ^ 32 }
    requires buffered { into.old.receiver.buffered ≡ sum_now untaken.old.items }
    ensures into { into.new ≡ record into.old {
      receiver = kept_receiver (takes (sum_now (take count untaken.old.items)) into.old.receiver);
    } }
    ensures untaken { untaken.new ≡ buffer (drop count untaken.old.items) untaken.old.capacity }
{
    let _ = into.buffered();
    let bytes = release(untaken, count);
    into.taken(count as u32, bytes);
}

/// Takes this number of sizes off the front, and returns their sum.
fn release(sizes: &mut HeapCircularBuffer<u32>, count: u64) -> u64
    requires { sum sizes.old.items < 2 ^ 64 }
    ensures sizes { sizes.new ≡ buffer (drop count sizes.old.items) sizes.old.capacity }
    ensures sum { result ≡ sum (take count sizes.old.items) }
{
    let mut bytes = 0;
    for _ in 0..count {
        let size = sizes.pop_front().unwrap_or(0);
        bytes += size as u64;
    }
    bytes
}
