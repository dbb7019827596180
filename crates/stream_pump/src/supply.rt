//! Each Tx offers what its streams send next.
ghost use Rattle.std.specs.Prelude.{◌≡◌, ◌<◌, true, length, OnOk};
ghost use Rattle.net_machine.specs.State.{State};
ghost use Rattle.fabric_lists.specs.Opened.{is_tx_stream};
ghost use Rattle.fabric_net.specs.Offering.{AreSupplied, IsSupplied};
ghost use Rattle.fabric_net.specs.Standing.{StandsFor};
ghost use Rattle.stream_pump.specs.Supply.{CarriesOut, OnlyOffers};

use crate::sides::SidedPlan;
use fabric_net::Net;
use rf_base::Memory;

/// How many offered packets of a stream wait at most.
const MOST_OFFERED: u32 = 16;

/// Offers the next packets of each stream that a Tx fills.
pub(crate) fn supply(net: &mut Net, plan: &SidedPlan<'_>) -> Result<(), Memory>
    requires { CarriesOut net.old.present plan.now }
    ensures supplied { OnOk result (AreSupplied net.new.present) }
    ensures offers { OnOk result (OnlyOffers net.old.present net.new.present) }
    ensures machine { OnOk result ((w : State) → StandsFor net.old.present w → StandsFor net.new.present w) }
    ensures journal { OnOk result (net.new.journal ≡ net.old.journal) }
{
    for s in 0..plan.streams() {
        if plan.begins_at_tx(s) {
            offer_next(net, s as u16)?;
        }
    }
    Ok(())
}

/// Offers the next packets of a stream that a Tx fills, until as many wait as may, or none is left.
fn offer_next(net: &mut Net, s: u16) -> Result<(), Memory>
    requires there { s < length net.old.present.streams }
    requires tx { is_tx_stream net.old.present.plan s ≡ true }
    ensures supplied { OnOk result (IsSupplied net.new.present s) }
    ensures offers { OnOk result (OnlyOffers net.old.present net.new.present) }
    ensures machine { OnOk result ((w : State) → StandsFor net.old.present w → StandsFor net.new.present w) }
    ensures journal { OnOk result (net.new.journal ≡ net.old.journal) }
{
    for _offered in net.offered(s)..MOST_OFFERED {
        match net.unoffered(s)? {
            Some(packet) => net.offer(s, packet),
            None => return Ok(()),
        }
    }
    Ok(())
}
