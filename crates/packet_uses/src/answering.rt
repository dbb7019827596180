ghost use Rattle.std.specs.Prelude.{◌≡◌, Some, IfOk};
ghost use Rattle.chdr_words.specs.Control.{FitsControl};
ghost use Rattle.chdr_packets.specs.Grammar.{IsCanon};
ghost use Rattle.block_registers.specs.Slots.{slots_after};
ghost use Rattle.packet_uses.specs.Answered.{Answered, Requests, reply_of, request_of};

use block_registers::RegisterSlots;
use chdr_packets::{Body, Packet, PacketFault, decode, encode};
use chdr_words::{Bytes, Control, Epid};
use rf_base::{Items, Memory};
use std::alloc::Global;

/// The virtual channel of what goes back to its source.
const BACK: u8 = 1;

/// The request that a body is; an acknowledgement is none.
fn request_of(body: &Body) -> Option<Control>
    ensures { result ≡ request_of body.now }
{
    match body {
        Body::Control(control) => {
            if control.ack {
                None
            } else {
                Some(control.copy())
            }
        }
        Body::Samples { .. } | Body::Status(_) | Body::Command(_) | Body::Management(_) => None,
    }
}

/// The control request at the front of bytes; `None` if bytes are missing, or another packet is.
fn request_in(alloc: Global, bytes: &[u8]) -> Result<Option<Control>, PacketFault>
    ensures { Requests bytes.now result }
{
    match decode(alloc, bytes) {
        Ok(Some((packet, _))) => Ok(request_of(&packet.body)),
        Ok(None) => Ok(None),
        Err(fault) => Err(fault),
    }
}

/// Carries a request out, and spells its acknowledgement.
fn reply<S: RegisterSlots>(
    alloc: Global,
    me: Epid,
    slots: &mut S,
    request: &Control,
) -> Result<Bytes, Memory>
    requires { FitsControl request.now }
    ensures reply { IfOk result (λ reply.
        IsCanon (reply_of me (S.slots slots.old) request.now) reply) }
    ensures slots { S.slots slots.new ≡
        slots_after (S.slots slots.old) (Some request.now.dst_port) request.now }
{
    let packet = Packet {
        vc: BACK,
        eob: false,
        eov: false,
        seq: 0,
        dst: request.src,
        mdata: Items::new(alloc),
        body: Body::Control(slots.operate(me, Some(request.dst_port), request)),
    };
    encode(alloc, &packet)
}

/// Carries the control request at the front of bytes out on the slot of its port.
///
/// Returns the bytes of its acknowledgement by the endpoint `me`, which go to the request's
/// source; `None` if no request is there.
/// Rule: docs/registers.md, "The acknowledgement".
pub fn answer<S: RegisterSlots>(
    alloc: Global,
    me: Epid,
    slots: &mut S,
    bytes: &[u8],
) -> Result<Option<Bytes>, PacketFault>
    ensures { Answered me (S.slots slots.old) (S.slots slots.new) bytes.now result }
{
    match request_in(alloc, bytes) {
        Ok(Some(request)) => Ok(Some(reply(alloc, me, slots, &request)?)),
        Ok(None) => Ok(None),
        Err(fault) => Err(fault),
    }
}
