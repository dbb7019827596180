//! Control commands: a host of the network asks a control request.
ghost use Rattle.std.specs.Prelude.{◌≡◌, IfOk};
ghost use Rattle.host_talk.specs.Settled.{IsSettledNow};
ghost use Rattle.script_runner.specs.Controls.{IsControlCause, IsControlled, IsFirstRequest, control_of};
ghost use Rattle.script_runner.specs.Standing.{HasTold};

use crate::talks::{Talk, has_host, name};
use block_registers::RegisterSlots;
use chdr_words::{Control, CtrlOp, CtrlStatus, Epid, Words15};
use ctrl_transactions::{CtrlFault, Host};
use fabric_net::Net;
use net_faults::Faults;
use rf_base::Memory;
use script_books::{Book, Refusal};
use std::alloc::Global;

/// The request of a control command.
pub(crate) fn request_of(
    host: Epid,
    port: u16,
    op: CtrlOp,
    addr: u32,
    words: &Words15,
    enables: u8,
) -> Control
    ensures { result ≡ control_of host port op addr words.now enables }
{
    Control {
        src: host,
        ack: false,
        time: None,
        seq: 0,
        src_port: 0,
        dst_port: port,
        status: CtrlStatus::Okay,
        op,
        enables,
        addr,
        words: words.copy(),
    }
}

/// A control request of an EPID, with what it loses. The host that asks it is its source.
#[derive(Clone, Copy)]
pub(crate) struct Asking<'a> {
    pub(crate) dst: Epid,
    pub(crate) request: &'a Control,
    pub(crate) lose: &'a Faults,
}

impl Talk for Asking<'_> {
    ghost use Rattle.script_runner.specs.Controls.{IsControlled, IsFirstRequest};

    ghost Fits = { λ it _. IsFirstRequest it.request.now };

    ghost Tells = { λ it. IsControlled it.dst it.request.now it.lose.now };

    fn talk<B: RegisterSlots>(
        &self,
        alloc: Global,
        net: &mut Net,
        banks: &mut B,
    ) -> Result<Book, Memory> {
        control_in(alloc, net, banks, self.dst, self.request, self.lose)
    }
}

/// Has a host of a net ask a control request of an EPID, if nothing refuses it.
fn control_in<B: RegisterSlots>(
    alloc: Global,
    net: &mut Net,
    banks: &mut B,
    dst: Epid,
    request: &Control,
    lose: &Faults,
) -> Result<Book, Memory>
    requires settled { IsSettledNow net.old.present }
    requires first { IsFirstRequest request.now }
    ensures { IfOk result (λ book. HasTold (IsControlled dst request.now lose.now) net.old (B.slots banks.old) book
        net.new (B.slots banks.new)) }
{
    if let Some(refusal) = refusal_of(net, request.src, dst) {
        return Ok(Book::Refused(refusal));
    }
    net.stands();
    name(net, lose)?;
    let mut host = Host::new(request.src);
    match host.transact(alloc, net, banks, dst, request) {
        Ok(ack) => Ok(Book::Control(ack)),
        Err(CtrlFault::NoAck) => Ok(Book::Refused(Refusal::NoAck)),
        Err(CtrlFault::NoRoute { .. }) => unreachable!(),
        Err(CtrlFault::Memory) => Err(Memory),
    }
}

/// Why a control request from one EPID to another isn't asked; none if nothing refuses it.
fn refusal_of(net: &Net, host: Epid, dst: Epid) -> Option<Refusal>
    ensures { IsControlCause net.now.present.tree net.now.present.nodes host dst result }
{
    if !has_host(net, host) {
        return Some(Refusal::NoHost { epid: host });
    }
    if !net.reaches(host, dst) {
        return Some(Refusal::NoRoute { epid: dst });
    }
    if !net.reaches(dst, host) {
        return Some(Refusal::NoRoute { epid: host });
    }
    None
}
