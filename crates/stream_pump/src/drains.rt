//! What the consumers of streams to Rx blocks take.
ghost use Rattle.std.specs.Prelude.{◌≡◌, ◌++◌, ◌<◌, [], true, length, vec_len, replicate, IfOk, OnOk};
ghost use Rattle.net_machine.specs.Conditions.{ends_at_rx};
ghost use Rattle.net_machine.specs.State.{State};
ghost use Rattle.fabric_net.specs.Standing.{StandsFor};
ghost use Rattle.stream_pump.specs.Drains.{HandsNext, HandsOut, waiting_at};
ghost use Rattle.stream_pump.specs.Supply.{CarriesOut};

use crate::sides::SidedPlan;
use chdr_packets::PacketList;
use fabric_net::Net;
use rf_base::{Items, Memory};
use std::alloc::Global;

/// For each of so many streams an empty list.
pub(crate) fn no_drains(alloc: Global, streams: usize) -> Result<Vec<PacketList>, Memory>
    ensures { IfOk result (λ drains. drains.items ≡ replicate streams []) }
{
    let mut drains = Vec::new(alloc);
    for _stream in 0..streams {
        drains.push(Items::new(alloc))?;
    }
    Ok(drains)
}

/// Hands out all that waits for the first Rx that has something, and answers the stream; none if no Rx has any.
pub(crate) fn take_next(
    net: &mut Net,
    plan: &SidedPlan<'_>,
    drains: &mut Vec<PacketList>,
) -> Result<Option<u16>, Memory>
    requires plan { CarriesOut net.old.present plan.now }
    requires drains { vec_len drains.old ≡ length plan.now.streams }
    ensures hands { IfOk result (λ first. HandsNext first net.old.present net.new.present drains.old.items drains.new.items) }
    ensures machine { OnOk result ((w : State) → StandsFor net.old.present w → StandsFor net.new.present w) }
    ensures journal { OnOk result (net.new.journal ≡ net.old.journal) }
{
    for s in 0..plan.streams() {
        if plan.ends_at_rx(s) {
            let before = drains[s].len();
            hand_out(net, s as u16, &mut drains[s])?;
            if drains[s].len() > before {
                return Ok(Some(s as u16));
            }
        }
    }
    Ok(None)
}

/// Hands out all that waits on a stream to an Rx.
fn hand_out(net: &mut Net, s: u16, drain: &mut PacketList) -> Result<(), Memory>
    requires there { s < length net.old.present.streams }
    requires rx { ends_at_rx net.old.present.plan s ≡ true }
    ensures drain { OnOk result (drain.new ≡ drain.old ++ waiting_at net.old.present s) }
    ensures hands { OnOk result (HandsOut s net.old.present net.new.present) }
    ensures machine { OnOk result ((w : State) → StandsFor net.old.present w → StandsFor net.new.present w) }
    ensures journal { OnOk result (net.new.journal ≡ net.old.journal) }
{
    while let Some(packet) = net.hand(s) {
        drain.push(packet)?;
    }
    Ok(())
}
