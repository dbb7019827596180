//! How streams stand and what they did, once a run is at its end.
ghost use Rattle.std.specs.Prelude.{◌≡◌, length, map, IfOk};
ghost use Rattle.std.specs.List.{range_with_len};
ghost use Rattle.net_machine.specs.State.{State};
ghost use Rattle.net_machine.specs.Tallies.{end_of, tally_of};
ghost use Rattle.fabric_net.specs.Standing.{StandsFor};

use fabric_net::Net;
use net_machine::{Ends, Tallies};
use rf_base::{Items, Memory};
use std::alloc::Global;

/// How each of a net's streams stands.
pub(crate) fn ends(alloc: Global, net: &Net, streams: u16) -> Result<Ends, Memory>
    requires { streams ≡ length net.now.present.streams }
    ensures { IfOk result (λ ends. (w : State) → StandsFor net.now.present w → ends ≡ map (end_of w) (range_with_len 0 streams)) }
{
    let mut ends = Items::new(alloc);
    for s in 0..streams {
        ends.push(net.end(s))?;
    }
    Ok(ends)
}

/// What each of them did.
pub(crate) fn tallies(alloc: Global, net: &Net, streams: u16) -> Result<Tallies, Memory>
    requires { streams ≡ length net.now.present.streams }
    ensures { IfOk result (λ tallies. (w : State) → StandsFor net.now.present w → tallies ≡ map (tally_of w) (range_with_len 0 streams)) }
{
    let mut tallies = Items::new(alloc);
    for s in 0..streams {
        tallies.push(net.tally(s))?;
    }
    Ok(tallies)
}
