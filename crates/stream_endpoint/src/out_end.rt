ghost use Rattle.std.specs.Prelude.{◌≡◌, ◌↔◌, IsTrue, Some};
ghost use Rattle.rf_base.specs.Kept.{Tells, Follows};
ghost use Rattle.chdr_words.specs.Command.{FitsCommand};
ghost use Rattle.stream_endpoint.specs.Counts.{count};
ghost use Rattle.stream_endpoint.specs.Flow.{IsValid};
ghost use Rattle.stream_endpoint.specs.Sender.{MaySend, may_send, enters, next_number, is_covered, sends, commands, state_of};
ghost use Rattle.stream_endpoint.specs.OutEnd.{kept, sending, on_sender, on_okay, on_gap, after_status, command_of};

use crate::{Count, Flow, OutState, Policy};
use chdr_words::{CmdOp, Command, Epid, Status, StatusCode};
use std::marker::Model;

/// The sending end of a stream; no call takes memory.
///
/// It is kept modulo 2^40 packets and 2^64 bytes, and contracts speak of each sender in whole
/// counts that it may stand for. Rules: docs/streams.md.
#[derive(Debug, Drop)]
pub struct OutEnd {
    me: Epid,
    flow: Flow,
    policy: Policy,
    state: OutState,
    /// All that was sent, from the start of the stream on, modulo 2^40 and 2^64.
    sent: Count,
    /// Sent less known, which is exact and never below 0.
    outstanding: Count,
    /// A PING was sent, and no status came since.
    pinging: bool,
    /// The command of this state was sent since the state began.
    commanded: bool,
}

impl Model for OutEnd {
    ghost use Rattle.std.specs.Prelude.{◌<◌, ◌^◌};
    ghost use Rattle.stream_endpoint.specs.OutEnd.{Sending};

    ghost Value = { Sending };

    ghost view = { λ e. record {
      me = e.me;
      flow = e.flow;
      policy = e.policy;
      sender = record {
        state = e.state;
        sent = e.sent;
        outstanding = e.outstanding;
        pinging = e.pinging;
        commanded = e.commanded;
      };
    } };

    ghost invariant = { λ e. e.sent.packets < 2 ^ 40 };
}

impl OutEnd {
    /// An end that has sent nothing. Its counts begin at the start, modulo 2^40 and 2^64.
    pub fn new(
        me: Epid,
        flow: &Flow,
        start_packets: u64,
        start_bytes: u64,
        policy: Policy,
    ) -> OutEnd
        requires { IsValid flow.now }
        ensures { result ≡ kept (sending me flow.now policy (count start_packets start_bytes)) }
    {
        let start = Count {
            packets: start_packets,
            bytes: start_bytes,
        };
        OutEnd {
            me,
            flow: *flow,
            policy,
            state: OutState::Opening,
            sent: start.spelled(),
            outstanding: Count::none(),
            pinging: false,
            commanded: false,
        }
    }

    /// Whether a packet of `wire` bytes may be sent: the end is Running, and there is credit.
    ///
    /// `wire` is a wire size in bytes: Length rounded up to a multiple of 8. A PING doesn't change the
    /// answer. A packet sent behind a PING is outstanding when the PING is answered, so the OKAY would
    /// tell of a loss that wasn't: whoever sends a PING sees to it that nothing can be sent.
    /// Rule: docs/streams.md, "Credit".
    pub fn may_send(&self, wire: u32) -> bool
        ensures credit { IsTrue result ↔ MaySend self.now.flow self.now.sender wire }
        ensures test { result ≡ may_send self.now.flow self.now.sender wire }
    {
        self.state == OutState::Running && self.flow.has_room(self.outstanding, wire)
    }

    /// Counts a packet of `wire` bytes as sent, and returns its number, modulo 2^16.
    ///
    /// Rule: docs/streams.md, "Credit".
    pub fn sent(&mut self, wire: u32) -> u16
        requires { MaySend self.old.flow self.old.sender wire }
        ensures number { result ≡ next_number self.old.sender }
        ensures tells { Tells kept self.old result (λ end. next_number end.sender) }
        ensures kept { self.new ≡ kept (on_sender (sends wire) self.old) }
        ensures follows { Follows kept self.old self.new (on_sender (sends wire)) }
    {
        let number = (self.sent.packets % 65536) as u16;
        self.sent = self.sent.and_one(wire);
        self.outstanding.packets += 1;
        self.outstanding.bytes += wire as u64;
        number
    }

    /// Takes in a status, whatever it tells.
    ///
    /// A count stands for the last one before what was sent that is spelled so.
    /// Rule: docs/streams.md, "The sender".
    pub fn status(&mut self, s: &Status)
        ensures kept { self.new ≡ kept (after_status s.now self.old) }
        ensures follows { Follows kept self.old self.new (after_status s.now) }
    {
        let told = Count {
            packets: s.got_packets,
            bytes: s.got_bytes,
        };
        self.outstanding = self.sent.minus(told);
        let missed = self.pinging && !self.outstanding.is_none();
        self.pinging = false;
        match s.code {
            StatusCode::Okay => self.okay(missed),
            StatusCode::SeqErr => self.gap(),
            StatusCode::CmdErr | StatusCode::DataErr | StatusCode::RtErr | StatusCode::Other(_) =>
                {}
        }
    }

    fn okay(&mut self, missed: bool)
        ensures { self.new ≡ on_okay missed self.old }
    {
        match self.state {
            OutState::Opening | OutState::Resyncing => self.enter(OutState::Running),
            OutState::Running => {
                if missed {
                    self.enter(self.policy.fallen());
                }
            }
            OutState::Halted => {}
        }
    }

    fn gap(&mut self)
        ensures { self.new ≡ on_gap self.old }
    {
        match self.state {
            OutState::Running => self.enter(self.policy.fallen()),
            OutState::Opening | OutState::Halted | OutState::Resyncing => {}
        }
    }

    fn enter(&mut self, state: OutState)
        ensures { self.new ≡ on_sender (enters state) self.old }
    {
        self.state = state;
        self.commanded = false;
    }

    /// Whether a command with this operation may be sent now: each belongs to one state.
    ///
    /// A PING asks besides that no packet can be sent until it is answered, see `may_send`; the caller
    /// knows that, and `may_order` of specs/Orders.antt says it.
    /// Rule: docs/streams.md, "The sender".
    pub fn may_command(&self, op: CmdOp) -> bool
        ensures { IsTrue result ↔ (state_of op ≡ Some self.now.sender.state) }
    {
        match op {
            CmdOp::Init => self.state == OutState::Opening,
            CmdOp::Ping => self.state == OutState::Running,
            CmdOp::Resync => self.state == OutState::Resyncing,
            CmdOp::Other(_) => false,
        }
    }

    /// The command to send, which from then on counts as sent.
    ///
    /// INIT tells the flow's frequency, RESYNC what was sent, modulo 2^40 packets and 2^64 bytes.
    /// Data that is sent between a RESYNC and its answer would count as arrived in the epoch before:
    /// in Resyncing `may_send` is false.
    /// Rule: docs/streams.md, "The sender".
    pub fn command(&mut self, op: CmdOp) -> Command
        requires { state_of op ≡ Some self.old.sender.state }
        ensures answer { result ≡ command_of op self.old }
        ensures tells { Tells kept self.old result (command_of op) }
        ensures fits { FitsCommand result }
        ensures kept { self.new ≡ kept (on_sender (commands op) self.old) }
        ensures follows { Follows kept self.old self.new (on_sender (commands op)) }
    {
        let counts = match op {
            CmdOp::Init => {
                self.commanded = true;
                self.flow.frequency()
            }
            CmdOp::Ping => {
                self.pinging = true;
                Count::none()
            }
            CmdOp::Resync => {
                self.commanded = true;
                self.sent
            }
            CmdOp::Other(_) => Count::none(),
        };
        Command {
            op,
            op_data: 0,
            src: self.me,
            packets: counts.packets,
            bytes: counts.bytes,
        }
    }

    pub fn state(&self) -> OutState
        ensures { result ≡ self.now.sender.state }
    {
        self.state
    }

    /// Whether the known counts equal the sent ones, in packets and in bytes.
    pub fn covered(&self) -> bool
        ensures { result ≡ is_covered self.now.sender }
    {
        self.outstanding.is_none()
    }

    /// Whether a PING was sent and no status came since: an OKAY that comes now and leaves something
    /// outstanding then tells of a loss.
    pub fn is_pinging(&self) -> bool
        ensures { result ≡ self.now.sender.pinging }
    {
        self.pinging
    }

    /// Whether the command of this state was sent since the state began.
    pub fn commanded(&self) -> bool
        ensures { result ≡ self.now.sender.commanded }
    {
        self.commanded
    }

    /// Sent less known, in packets and in bytes of wire size.
    pub fn outstanding(&self) -> Count
        ensures { result ≡ self.now.sender.outstanding }
    {
        self.outstanding
    }
}
