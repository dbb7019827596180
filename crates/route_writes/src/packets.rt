//! The packets of writes.
ghost use Rattle.std.specs.Prelude.{◌≡◌, ◌≤◌, [], ◌∷◌, ◌++◌, length, IfOk};
ghost use Rattle.net_walks.specs.Walks.{collector, onward};
ghost use Rattle.net_writes.specs.Crossings.{entry_write, writing};
ghost use Rattle.route_writes.specs.Packets.{crossing_of, hops_by, write_by};

use crate::steps::Step;
use chdr_packets::{Body, Packet};
use chdr_words::{Cfg, Epid, Hop, HopList, Management, MgmtOp, Operation};
use fabric_nodes::message;
use rf_base::{Items, Memory};
use std::alloc::Global;

/// The channel of requests.
const FORWARD_VC: u8 = 0;

/// The version of management payloads.
const VERSION: u16 = 0x100;

/// The port of a node that leads to an EPID.
#[derive(Clone, Copy, Debug, PartialEq, Eq)]
pub(crate) struct Entry {
    pub(crate) epid: Epid,
    pub(crate) port: u8,
}

/// The packet that goes by these steps and writes two entries of the node at their end. The first step leaves the host,
/// which performs no hop.
pub(crate) fn write_packet(
    alloc: Global,
    src: Epid,
    steps: &[Step],
    a: Entry,
    b: Entry,
) -> Result<Packet, Memory>
    requires { 1 ≤ length steps.now }
    ensures { IfOk result (λ packet. packet ≡ write_by src steps.now (crossing_of a b)) }
{
    let hops = write_hops(alloc, &steps[1..], a, b)?;
    let body = Body::Management(Management {
        version: VERSION,
        width: 0,
        src,
        hops,
    });
    Ok(message(alloc, FORWARD_VC, Epid(0), body))
}

/// The hops at nodes that are left by these steps, at the node behind, and the one that collects answers.
fn write_hops(alloc: Global, steps: &[Step], a: Entry, b: Entry) -> Result<HopList, Memory>
    ensures { IfOk result (λ hops. hops ≡ hops_by steps.now (crossing_of a b)) }
{
    let mut hops = Items::new(alloc);
    for step in steps {
        hops.push(onward(alloc, step.port)?)?;
    }
    hops.push(writing(alloc, a, b)?)?;
    hops.push(collector(alloc)?)?;
    Ok(hops)
}

/// The hop at a node that the packet leaves by a port.
fn onward(alloc: Global, port: u8) -> Result<Hop, Memory>
    ensures { IfOk result (λ hop. hop ≡ onward port) }
{
    let mut hop = Items::new(alloc);
    hop.push(Operation::Advertise.spelled())?;
    hop.push(Operation::SelectDest(port as u16).spelled())?;
    Ok(hop)
}

/// The hop at the node whose entries are written.
fn writing(alloc: Global, a: Entry, b: Entry) -> Result<Hop, Memory>
    ensures { IfOk result (λ hop. hop ≡ writing (crossing_of a b)) }
{
    let mut hop = Items::new(alloc);
    hop.push(Operation::Advertise.spelled())?;
    hop.push(entry_write(b))?;
    hop.push(entry_write(a))?;
    hop.push(Operation::Return.spelled())?;
    Ok(hop)
}

/// The operation that writes an entry.
fn entry_write(entry: Entry) -> MgmtOp
    ensures { result ≡ entry_write entry.epid entry.port }
{
    Operation::CfgWrite(Cfg {
        value: entry.port as u32,
        addr: entry.epid.0,
    })
    .spelled()
}

/// The last hop, which collects the answers.
fn collector(alloc: Global) -> Result<Hop, Memory>
    ensures { IfOk result (λ hop. hop ≡ collector) }
{
    let mut hop = Items::new(alloc);
    hop.push(Operation::Nop.spelled())?;
    Ok(hop)
}
