//! The packets of probes.
ghost use Rattle.std.specs.Prelude.{◌≡◌, ◌≤◌, [], ◌∷◌, ◌++◌, length, map, IfOk};
ghost use Rattle.net_walks.specs.Walks.{collector, inquiry, onward};
ghost use Rattle.topology_walk.specs.Probes.{probe_over};

use chdr_packets::{Body, Packet};
use chdr_words::{Epid, Hop, HopList, Management, Operation};
use fabric_nodes::message;
use rf_base::{Items, Memory};
use std::alloc::Global;

/// The channel of requests.
const FORWARD_VC: u8 = 0;

/// The version of management payloads.
const VERSION: u16 = 0x100;

/// A probe that leaves the nodes on its way by these ports; the first one is the host's, where it performs no hop.
pub(crate) fn probe_packet(alloc: Global, src: Epid, ports: &[u8]) -> Result<Packet, Memory>
    requires { 1 ≤ length ports.now }
    ensures { IfOk result (λ packet. packet ≡ probe_over src ports.now) }
{
    let hops = probe_hops(alloc, &ports[1..])?;
    let body = Body::Management(Management {
        version: VERSION,
        width: 0,
        src,
        hops,
    });
    Ok(message(alloc, FORWARD_VC, Epid(0), body))
}

/// The hops at nodes that are left by these ports, at the node behind, and the one that collects answers.
fn probe_hops(alloc: Global, ports: &[u8]) -> Result<HopList, Memory>
    ensures { IfOk result (λ hops. hops ≡ map onward ports.now ++ inquiry ∷ collector ∷ []) }
{
    let mut hops = Items::new(alloc);
    for port in ports {
        hops.push(onward(alloc, *port)?)?;
    }
    hops.push(inquiry(alloc)?)?;
    hops.push(collector(alloc)?)?;
    Ok(hops)
}

/// The hop at a node that the probe leaves by a port.
fn onward(alloc: Global, port: u8) -> Result<Hop, Memory>
    ensures { IfOk result (λ hop. hop ≡ onward port) }
{
    let mut hop = Items::new(alloc);
    hop.push(Operation::Advertise.spelled())?;
    hop.push(Operation::SelectDest(port as u16).spelled())?;
    Ok(hop)
}

/// The hop at the node that is asked what it is.
fn inquiry(alloc: Global) -> Result<Hop, Memory>
    ensures { IfOk result (λ hop. hop ≡ inquiry) }
{
    let mut hop = Items::new(alloc);
    hop.push(Operation::Advertise.spelled())?;
    hop.push(Operation::InfoReq.spelled())?;
    hop.push(Operation::Return.spelled())?;
    Ok(hop)
}

/// The last hop, which collects the answers.
fn collector(alloc: Global) -> Result<Hop, Memory>
    ensures { IfOk result (λ hop. hop ≡ collector) }
{
    let mut hop = Items::new(alloc);
    hop.push(Operation::Nop.spelled())?;
    Ok(hop)
}
