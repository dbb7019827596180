//! One request, from its host to its answer.
ghost use Rattle.std.specs.Prelude.{◌≡◌, IfOk, IsSome, OnOk};
ghost use Rattle.net_topology.specs.Links.{link_at};
ghost use Rattle.fabric_net.specs.Asking.{CanAskNow};
ghost use Rattle.host_talk.specs.Settled.{IsSettledNow};
ghost use Rattle.host_talk.specs.Talking.{HasSettled, HasTalked};

use block_registers::RegisterSlots;
use chdr_packets::Packet;
use fabric_net::Net;
use net_machine::Seed;
use rf_base::Memory;

/// Gives a host a request in a settled net, and lets the first event happen, again and again, until none is left; then
/// takes the answer that came to the host, if one did.
///
/// At `Err` the net is only good to be built anew, and registers may have been written. Rule:
/// docs/control-and-discovery.md, "Requests and answers".
pub fn talk<B: RegisterSlots>(
    net: &mut Net,
    banks: &mut B,
    node: u16,
    packet: Packet,
) -> Result<Option<Packet>, Memory>
    requires settled { IsSettledNow net.old.present }
    requires can { CanAskNow net.old.present node packet }
    requires linked { IsSome (link_at net.old.present.tree.links node 0) }
    ensures { IfOk result (λ answer. HasTalked net.old (B.slots banks.old) node packet answer net.new (B.slots banks.new)) }
{
    net.ask(node, packet)?;
    settle(net, banks)?;
    Ok(net.answer(node))
}

/// Lets the first event happen, again and again, until none is left.
fn settle<B: RegisterSlots>(net: &mut Net, banks: &mut B) -> Result<(), Memory>
    ensures { OnOk result (HasSettled net.old (B.slots banks.old) net.new (B.slots banks.new)) }
{
    for _step in 0..u64::MAX {
        match net.choose(&mut Seed(0)) {
            Some(event) => {
                net.prepare(event)?;
                net.step(event, banks);
            }
            None => return Ok(()),
        }
    }
    Err(Memory)
}
