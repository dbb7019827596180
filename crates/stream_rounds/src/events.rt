ghost use Rattle.std.specs.Prelude.{◌≡◌, OnOk, None};
ghost use Rattle.fabric_events.specs.Choosing.{chosen_now};
ghost use Rattle.stream_rounds.specs.Steps.{Goes, Sees};

use block_registers::RegisterSlots;
use fabric_net::Net;
use net_machine::{Event, Seed};
use rf_base::Memory;

/// Lets events happen, the first that can happen first, until none but a taking can.
pub(crate) fn settle<B: RegisterSlots>(net: &mut Net, banks: &mut B) -> Result<(), Memory>
    ensures goes { OnOk result (Goes net.old (B.slots banks.old) net.new (B.slots banks.new)) }
    ensures none { OnOk result (chosen_now 0 net.new.present ≡ None) }
{
    for _step in 0..u64::MAX {
        let mut first = Seed(0);
        match net.choose(&mut first) {
            Some(event) => {
                net.prepare(event)?;
                net.step(event, banks);
            }
            None => return Ok(()),
        }
    }
    Err(Memory)
}

/// Lets the Rx of a stream take up to a packet, if it can.
pub(crate) fn see<B: RegisterSlots>(
    net: &mut Net,
    banks: &mut B,
    stream: u16,
    packets: u64,
) -> Result<(), Memory>
    ensures { OnOk result (Sees stream packets net.old net.new (B.slots banks.old) (B.slots banks.new)) }
{
    let seen = Event::Seen(stream, packets);
    if net.doable(seen) {
        net.prepare(seen)?;
        net.step(seen, banks);
    }
    Ok(())
}
