//! A host that asks control requests, one at a time.
ghost use Rattle.std.specs.Prelude.{◌≡◌, false, IsSome};
ghost use Rattle.std.specs.Option.{option_and_then};
ghost use Rattle.chdr_words.specs.Control.{FitsControl};
ghost use Rattle.net_machine.specs.Nodes.{host_with};
ghost use Rattle.net_machine.specs.Passing.{message};
ghost use Rattle.net_machine.specs.Queues.{forward_vc};
ghost use Rattle.host_talk.specs.Settled.{IsSettledNow};
ghost use Rattle.ctrl_transactions.specs.Requests.{asked_as, control_in, next_host, request_of};
ghost use Rattle.ctrl_transactions.specs.Transactions.{IsTransaction};

use crate::CtrlFault;
use block_registers::RegisterSlots;
use chdr_packets::{Body, Packet};
use chdr_words::{Control, Epid};
use fabric_net::Net;
use fabric_nodes::message;
use host_talk::talk;
use std::alloc::Global;
use std::marker::Model;

/// The channel of requests.
const FORWARD_VC: u8 = 0;

/// How many numbers requests have.
const NUMBERS: u8 = 64;

/// A host of a network, by its EPID, with the number of its next request.
#[derive(Debug, Drop)]
pub struct Host {
    epid: Epid,
    seq: u8,
}

impl Model for Host {
    ghost use Rattle.std.specs.Prelude.{◌<◌};
    ghost use Rattle.ctrl_transactions.specs.Requests.{HostSeen};

    ghost Value = { HostSeen };

    ghost view = { λ host. record { epid = host.epid; seq = host.seq } };

    ghost invariant = { λ host. host.seq < 64 };
}

impl Host {
    /// The host of an EPID, which asked nothing yet.
    pub fn new(epid: Epid) -> Host
        ensures { result ≡ record { epid = epid; seq = 0 } }
    {
        Host { epid, seq: 0 }
    }

    /// Asks a control request of an EPID, as the host's next, and returns the acknowledgement.
    ///
    /// After `NoRoute` nothing has changed. After `NoAck` the operation may have been done; after `Memory` so it may,
    /// and the net is only good to be built anew. Rule: docs/control-and-discovery.md, "Control transactions".
    pub fn transact<B: RegisterSlots>(
        &mut self,
        alloc: Global,
        net: &mut Net,
        banks: &mut B,
        dst: Epid,
        request: &Control,
    ) -> Result<Control, CtrlFault>
        requires host { IsSome (host_with net.old.present.tree self.old.epid) }
        requires settled { IsSettledNow net.old.present }
        requires fits { FitsControl request.now }
        requires asks { request.now.ack ≡ false }
        ensures { IsTransaction (record { host = self.old; net = net.old; banks = B.slots banks.old }) dst request.now result
            (record { host = self.new; net = net.new; banks = B.slots banks.new }) }
    {
        if !net.reaches(self.epid, dst) {
            return Err(CtrlFault::NoRoute { epid: dst });
        }
        if !net.reaches(dst, self.epid) {
            return Err(CtrlFault::NoRoute { epid: self.epid });
        }
        let node = match net.host(self.epid) {
            Some((node, _)) => node,
            None => unreachable!(),
        };
        net.stands();
        let packet = self.request(alloc, dst, request);
        let answer = talk(net, banks, node, packet)?;
        self.seq = (self.seq + 1) % NUMBERS;
        match acknowledged(&answer) {
            Some(control) => Ok(control),
            None => Err(CtrlFault::NoAck),
        }
    }

    /// The packet of a request, with the host's EPID and its next number.
    fn request(&self, alloc: Global, dst: Epid, request: &Control) -> Packet
        ensures { result ≡ request_of self.now dst request.now }
    {
        let mut control = request.copy();
        control.src = self.epid;
        control.seq = self.seq;
        message(alloc, FORWARD_VC, dst, Body::Control(control))
    }
}

/// The control payload of an answer, if one came.
fn acknowledged(answer: &Option<Packet>) -> Option<Control>
    ensures { result ≡ option_and_then control_in answer.now }
{
    match answer {
        Some(packet) => control_in(packet),
        None => None,
    }
}

/// The control payload of a packet.
fn control_in(packet: &Packet) -> Option<Control>
    ensures { result ≡ control_in packet.now }
{
    match &packet.body {
        Body::Control(control) => Some(control.copy()),
        Body::Samples { .. } | Body::Status(_) | Body::Command(_) | Body::Management(_) => None,
    }
}
