//! The streams of a net, and what each does, by its number.
ghost use Rattle.std.specs.Prelude.{◌≡◌, ◌+◌, ◌-◌, ◌^◌, ◌<◌, ◌≤◌, [], ◌∷◌, List, true, false, length, slice_get, IfOk, IsTrue, MatchOption, All, Some};
ghost use Rattle.chdr_packets.specs.Length.{wire_of};
ghost use Rattle.chdr_packets.specs.declared.packet.Packet.{Packet as PacketValue};
ghost use Rattle.chdr_words.specs.Command.{FitsCommand};
ghost use Rattle.chdr_words.specs.Status.{FitsStatus};
ghost use Rattle.stream_endpoint.specs.InEnd.{status_of};
ghost use Rattle.stream_endpoint.specs.OutEnd.{command_of};
ghost use Rattle.stream_endpoint.specs.Receiver.{FindsRoom, is_due};
ghost use Rattle.stream_endpoint.specs.Sender.{next_number, state_of};
ghost use Rattle.net_machine.specs.Conditions.{can_send};
ghost use Rattle.net_machine.specs.Streams.{numbered};
ghost use Rattle.net_present.specs.Kept.{now_at};
ghost use Rattle.net_present.specs.Present.{front_now_of};
ghost use Rattle.net_present.specs.StreamSteps.{fed_now, gets_now, gets_order_now, gets_status_now, readies_now, receiving_now, sending_now, sends_first_now, sends_order_now, sends_status_now, taken_now};
ghost use Rattle.fabric_parts.specs.Ready.{IsShort, most_offered};
ghost use Rattle.fabric_parts.specs.Streams.{hands_now, offers_now};
ghost use Rattle.fabric_flags.specs.Set.{IsNext, NoneFrom, flag_at};
ghost use Rattle.fabric_lists.specs.StreamFlags.{flags_of};
ghost use Rattle.fabric_lists.specs.StreamsView.{on_at, plan_seen, streams_of, tx_seen};

use crate::stream_flags::StreamFlags;
use chdr_packets::{Packet, PacketList};
use chdr_words::{CmdOp, Command, Status};
use fabric_parts::StreamPart;
use rf_base::Memory;
use std::alloc::Global;
use std::marker::Model;

/// The streams of a network, by their numbers; contracts see what is kept of each.
///
/// Only `new` takes memory.
#[derive(Debug, Drop)]
pub struct Streams {
    parts: Vec<StreamPart>,
    /// Which of them may have an event to choose.
    flags: StreamFlags,
}

impl Model for Streams {
    ghost use Rattle.fabric_lists.specs.StreamList.{IsSound, StreamList, view_of};

    ghost Value = { StreamList };

    ghost view = { view_of };

    ghost invariant = { IsSound };
}

impl Streams {
    /// These streams.
    pub fn new(alloc: Global, parts: Vec<StreamPart>) -> Result<Streams, Memory>
        ensures { IfOk result (λ streams. streams.items ≡ parts.items) }
    {
        let flags = StreamFlags::of(alloc, parts.as_slice())?;
        Ok(Streams { parts, flags })
    }

    /// How many streams there are.
    pub fn len(&self) -> usize
        ensures { result ≡ length self.now.items }
    {
        self.parts.len()
    }

    pub fn allocator(&self) -> &Global {
        self.parts.allocator()
    }

    /// The streams as they are read.
    pub fn as_slice(&self) -> &[StreamPart]
        ensures value { result.now ≡ self.now.items }
    {
        self.parts.as_slice()
    }

    /// The first stream from stream s on that may send a packet, as far as it tells by itself.
    pub fn next_sending(&self, s: usize) -> Option<usize>
        ensures { let set = flag_at (flags_of self.now.items).sending in MatchOption result (NoneFrom set s) (IsNext set s) }
    {
        self.flags.sending.next_from(s)
    }

    /// The first stream from stream s on that owes a status.
    pub fn next_owing(&self, s: usize) -> Option<usize>
        ensures { let set = flag_at (flags_of self.now.items).owing in MatchOption result (NoneFrom set s) (IsNext set s) }
    {
        self.flags.owing.next_from(s)
    }

    /// The first command from command c on that a stream might give, as far as it tells by itself.
    ///
    /// Stream s has three: its INIT is command 3 s, then its PING and its RESYNC.
    pub fn next_ordering(&self, c: usize) -> Option<usize>
        ensures { let set = flag_at (flags_of self.now.items).ordering in MatchOption result (NoneFrom set c) (IsNext set c) }
    {
        self.flags.ordering.next_from(c)
    }
}

/// The first ready packet is sent: it gets its channel, its number and its consumer.
pub fn send(streams: &mut Streams, s: usize) -> Packet
    requires there { s < length streams.old.items }
    requires credit { IsTrue (can_send (plan_seen (streams_of streams.old.items).plans s).flow
        (front_now_of (now_at (streams_of streams.old.items).now s)) (now_at (streams_of streams.old.items).now s).ready) }
    requires offered { tx_seen (streams_of streams.old.items).txs s ≡ true →
        0 < (now_at (streams_of streams.old.items).now s).offered }
    requires count { (now_at (streams_of streams.old.items).now s).sent < 2 ^ 64 - 1 }
    ensures { (p : PacketValue) (rest : List PacketValue) → (now_at (streams_of streams.old.items).now s).ready ≡ p ∷ rest →
        (streams_of streams.new.items ≡ on_at s (sends_first_now p rest) (streams_of streams.old.items))
        × (result ≡ numbered (plan_seen (streams_of streams.old.items).plans s)
        (next_number (now_at (streams_of streams.old.items).now s).sender) p) }
{
    let stream = &mut streams.parts[s];
    let packet = stream.send();
    streams.flags.note(s, stream);
    packet
}

/// A command is sent.
pub fn order(streams: &mut Streams, s: usize, op: CmdOp) -> Command
    requires there { s < length streams.old.items }
    requires state { state_of op ≡ Some (now_at (streams_of streams.old.items).now s).sender.state }
    requires count { (now_at (streams_of streams.old.items).now s).commands < 2 ^ 64 - 1 }
    ensures answer { result ≡ command_of op (sending_now (plan_seen (streams_of streams.old.items).plans s) (now_at (streams_of streams.old.items).now s)) }
    ensures fits { FitsCommand result }
    ensures next { streams_of streams.new.items ≡ on_at s (sends_order_now op) (streams_of streams.old.items) }
{
    let stream = &mut streams.parts[s];
    let command = stream.order(op);
    streams.flags.note(s, stream);
    command
}

/// The status that is due is sent.
pub fn report(streams: &mut Streams, s: usize) -> Status
    requires there { s < length streams.old.items }
    requires due { IsTrue (is_due (now_at (streams_of streams.old.items).now s).receiver) }
    requires count { (now_at (streams_of streams.old.items).now s).statuses < 2 ^ 64 - 1 }
    ensures answer { result ≡ status_of (receiving_now (plan_seen (streams_of streams.old.items).plans s) (now_at (streams_of streams.old.items).now s)) }
    ensures fits { FitsStatus result }
    ensures next { streams_of streams.new.items ≡ on_at s (sends_status_now) (streams_of streams.old.items) }
{
    let stream = &mut streams.parts[s];
    let status = stream.report();
    streams.flags.note(s, stream);
    status
}

/// A packet comes to the receiver.
pub fn arrive(streams: &mut Streams, s: usize, packet: Packet)
    requires there { s < length streams.old.items }
    requires room { FindsRoom (plan_seen (streams_of streams.old.items).plans s).flow (now_at (streams_of streams.old.items).now s).receiver packet.seq (wire_of packet) }
    requires short { IsShort packet }
    requires count { (now_at (streams_of streams.old.items).now s).given < 2 ^ 64 - 1 }
    ensures { streams_of streams.new.items ≡ on_at s (gets_now packet) (streams_of streams.old.items) }
{
    let stream = &mut streams.parts[s];
    stream.arrive(packet);
    streams.flags.note(s, stream);
}

/// A command comes to the receiver.
pub fn obey(streams: &mut Streams, s: usize, command: &Command)
    requires there { s < length streams.old.items }
    requires count { (now_at (streams_of streams.old.items).now s).cuts < 2 ^ 64 - 1 }
    ensures { streams_of streams.new.items ≡ on_at s (gets_order_now command.now) (streams_of streams.old.items) }
{
    let stream = &mut streams.parts[s];
    stream.obey(command);
    streams.flags.note(s, stream);
}

/// A status comes to the sender.
pub fn hear(streams: &mut Streams, s: usize, status: &Status)
    requires there { s < length streams.old.items }
    ensures { streams_of streams.new.items ≡ on_at s (gets_status_now (plan_seen (streams_of streams.old.items).plans s) status.now) (streams_of streams.old.items) }
{
    let stream = &mut streams.parts[s];
    stream.hear(status);
    streams.flags.note(s, stream);
}

/// The consumer has taken `n` packets in all, each of which was handed out.
pub fn take_to(streams: &mut Streams, s: usize, n: u64)
    requires there { s < length streams.old.items }
    requires more { (now_at (streams_of streams.old.items).now s).taken ≤ n }
    requires handed { n + length (now_at (streams_of streams.old.items).now s).waiting ≤ (now_at (streams_of streams.old.items).now s).given }
    ensures { streams_of streams.new.items ≡ on_at s (taken_now n) (streams_of streams.old.items) }
{
    let stream = &mut streams.parts[s];
    stream.take_to(n);
    streams.flags.note(s, stream);
}

/// The first packet that waits is fed to a block, and so taken.
pub fn feed(streams: &mut Streams, s: usize) -> Packet
    requires there { s < length streams.old.items }
    requires some { 0 < length (now_at (streams_of streams.old.items).now s).waiting }
    ensures packet { slice_get (now_at (streams_of streams.old.items).now s).waiting 0 ≡ Some result }
    ensures next { streams_of streams.new.items ≡ on_at s (fed_now) (streams_of streams.old.items) }
{
    let stream = &mut streams.parts[s];
    let packet = stream.feed();
    streams.flags.note(s, stream);
    packet
}

/// The first packet that waits is handed out; no flag tells of those.
pub fn hand(streams: &mut Streams, s: usize) -> Option<Packet>
    requires there { s < length streams.old.items }
    ensures packet { result ≡ slice_get (now_at (streams_of streams.old.items).now s).waiting 0 }
    ensures next { streams_of streams.new.items ≡ on_at s (hands_now) (streams_of streams.old.items) }
{
    let stream = &mut streams.parts[s];
    stream.hand()
}

/// Takes the next packet of a Tx's list.
pub fn offer(streams: &mut Streams, s: usize, packet: Packet)
    requires there { s < length streams.old.items }
    requires tx { tx_seen (streams_of streams.old.items).txs s ≡ true }
    requires few { (now_at (streams_of streams.old.items).now s).offered < most_offered }
    requires next { slice_get (now_at (streams_of streams.old.items).now s).ready (now_at (streams_of streams.old.items).now s).offered ≡ Some packet }
    ensures { streams_of streams.new.items ≡ on_at s (offers_now) (streams_of streams.old.items) }
{
    let stream = &mut streams.parts[s];
    stream.offer(packet);
    streams.flags.note(s, stream);
}

/// What a block gave becomes ready, where nothing is; the list is moved as it is.
pub fn fill(streams: &mut Streams, s: usize, packets: PacketList)
    requires there { s < length streams.old.items }
    requires tx { tx_seen (streams_of streams.old.items).txs s ≡ false }
    requires none { (now_at (streams_of streams.old.items).now s).ready ≡ [] }
    requires short { All IsShort packets }
    ensures { streams_of streams.new.items ≡ on_at s (readies_now packets) (streams_of streams.old.items) }
{
    let stream = &mut streams.parts[s];
    stream.fill(packets);
    streams.flags.note(s, stream);
}
