ghost use Rattle.std.specs.Prelude.{◌≡◌, ◌↔◌, ◌≤◌, IsTrue};
ghost use Rattle.rf_base.specs.Kept.{Tells, Follows};
ghost use Rattle.chdr_words.specs.Status.{FitsStatus};
ghost use Rattle.stream_endpoint.specs.Counts.{count};
ghost use Rattle.stream_endpoint.specs.Flow.{IsValid};
ghost use Rattle.stream_endpoint.specs.Receiver.{arrives, FindsRoom, takes, is_due, reports};
ghost use Rattle.stream_endpoint.specs.InEnd.{kept, receiving, on_receiver, arrival_of, counts_of, after_command, Obeys, status_of};

use crate::{Arrived, Count, Flow, Gap, Notice};
use chdr_words::{CmdOp, Command, Epid, Status, StatusCode};
use std::marker::Model;

/// The receiving end of a stream; no call takes memory.
///
/// It is kept modulo 2^40 packets and 2^64 bytes, and contracts speak of each receiver in whole
/// counts that it may stand for. Rules: docs/streams.md.
#[derive(Debug, Drop)]
pub struct InEnd {
    me: Epid,
    flow: Flow,
    /// Where a packet was missed; a good end has none.
    broken: Option<Gap>,
    /// All that was kept, from the start of the stream on, modulo 2^40 and 2^64.
    reached: Count,
    /// What was kept and not taken, which is exact.
    buffered: Count,
    /// How much taken makes a status due.
    frequency: Count,
    notice: Notice,
}

impl Model for InEnd {
    ghost use Rattle.std.specs.Prelude.{◌<◌, ◌^◌};
    ghost use Rattle.stream_endpoint.specs.InEnd.{Receiving};

    ghost Value = { Receiving };

    ghost view = { λ e. record {
      me = e.me;
      flow = e.flow;
      receiver = record {
        broken = e.broken;
        reached = e.reached;
        buffered = e.buffered;
        frequency = e.frequency;
        notice = e.notice;
      };
    } };

    ghost invariant = { λ e. e.reached.packets < 2 ^ 40 };
}

impl InEnd {
    /// An end that has received nothing. Its counts begin at the start, modulo 2^40 and 2^64.
    pub fn new(me: Epid, flow: &Flow, start_packets: u64, start_bytes: u64) -> InEnd
        ensures { result ≡ kept (receiving me flow.now (count start_packets start_bytes)) }
    {
        let start = Count {
            packets: start_packets,
            bytes: start_bytes,
        };
        InEnd {
            me,
            flow: *flow,
            broken: None,
            reached: start.spelled(),
            buffered: Count::none(),
            frequency: flow.frequency(),
            notice: Notice::Since(Count::none()),
        }
    }

    /// Whether a packet of this number and wire size finds room if it is kept.
    ///
    /// Rule: docs/streams.md, "Credit".
    pub fn finds_room(&self, seq: u16, wire: u32) -> bool
        ensures { IsTrue result ↔ FindsRoom self.now.flow self.now.receiver seq wire }
    {
        self.broken.is_some()
            || seq != (self.reached.packets % 65536) as u16
            || self.flow.has_room(self.buffered, wire)
    }

    /// Takes in a packet of this number and wire size.
    ///
    /// Rule: docs/streams.md, "The receiver".
    pub fn arrive(&mut self, seq: u16, wire: u32) -> Arrived
        requires { FindsRoom self.old.flow self.old.receiver seq wire }
        ensures answer { result ≡ arrival_of seq self.old }
        ensures tells { Tells kept self.old result (arrival_of seq) }
        ensures kept { self.new ≡ kept (on_receiver (arrives seq wire) self.old) }
        ensures follows { Follows kept self.old self.new (on_receiver (arrives seq wire)) }
    {
        if self.broken.is_some() {
            return Arrived::Discarded;
        }
        let expected = (self.reached.packets % 65536) as u16;
        if seq == expected {
            self.reached = self.reached.and_one(wire);
            self.buffered.packets += 1;
            self.buffered.bytes += wire as u64;
            Arrived::Kept
        } else {
            self.broken = Some(Gap { expected, got: seq });
            self.notice = Notice::Due;
            Arrived::Gap { expected, got: seq }
        }
    }

    /// This much of what is buffered has gone to the consumer.
    ///
    /// Rule: docs/streams.md, "The receiver".
    pub fn taken(&mut self, packets: u32, bytes: u64)
        requires packets_in { packets ≤ self.old.receiver.buffered.packets }
        requires bytes_in { bytes ≤ self.old.receiver.buffered.bytes }
        ensures kept { self.new ≡ kept (on_receiver (takes (count packets bytes)) self.old) }
        ensures follows { Follows kept self.old self.new (on_receiver (takes (count packets bytes))) }
    {
        self.buffered.packets -= packets as u64;
        self.buffered.bytes -= bytes;
        let more = Count {
            packets: packets as u64,
            bytes,
        };
        self.notice = self.notice.after(self.frequency, more);
    }

    /// Takes in a command, whatever it carries; its counts are read modulo 2^40 and 2^64.
    ///
    /// The totals of a RESYNC stand for any whole counts that they spell.
    /// Rule: docs/streams.md, "The receiver".
    pub fn command(&mut self, c: &Command)
        ensures kept { self.new ≡ kept (after_command c.now (counts_of c.now) self.old) }
        ensures follows { Obeys c.now self.old self.new }
    {
        let told = Count {
            packets: c.packets,
            bytes: c.bytes,
        }
        .spelled();
        match c.op {
            CmdOp::Init => {
                self.frequency = told;
                self.notice = Notice::Due;
            }
            CmdOp::Ping => self.notice = Notice::Due,
            CmdOp::Resync => {
                self.broken = None;
                self.reached = told;
                self.notice = Notice::Due;
            }
            CmdOp::Other(_) => {}
        }
    }

    /// Whether a status is to be sent.
    pub fn due(&self) -> bool
        ensures { result ≡ is_due self.now.receiver }
    {
        self.notice.is_due()
    }

    /// The status that is due, which from then on counts as sent.
    ///
    /// It tells the transferred counts modulo 2^40 packets and 2^64 bytes.
    /// Rule: docs/streams.md, "The receiver".
    pub fn report(&mut self) -> Status
        requires { IsTrue (is_due self.old.receiver) }
        ensures answer { result ≡ status_of self.old }
        ensures tells { Tells kept self.old result status_of }
        ensures fits { IsValid self.old.flow → FitsStatus result }
        ensures kept { self.new ≡ kept (on_receiver reports self.old) }
        ensures follows { Follows kept self.old self.new (on_receiver reports) }
    {
        self.notice = Notice::Since(Count::none());
        let got = self.reached.minus(self.buffered);
        let (code, info) = match self.broken {
            None => (StatusCode::Okay, 0),
            Some(gap) => (StatusCode::SeqErr, gap.info()),
        };
        Status {
            code,
            src: self.me,
            cap_bytes: self.flow.cap_bytes,
            cap_packets: self.flow.cap_packets,
            got_packets: got.packets,
            got_bytes: got.bytes,
            info,
            buffer: 0,
        }
    }

    /// What was kept and not taken, in packets and in bytes of wire size.
    pub fn buffered(&self) -> Count
        ensures { result ≡ self.now.receiver.buffered }
    {
        self.buffered
    }

    /// The gap of a broken end; a good end has none.
    pub fn broken(&self) -> Option<Gap>
        ensures { result ≡ self.now.receiver.broken }
    {
        self.broken
    }
}
