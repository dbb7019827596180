//! By which port a management packet leaves a node, as its first hop tells before it is performed.
ghost use Rattle.std.specs.Prelude.{◌≡◌, option_copied};
ghost use Rattle.net_nodes.specs.Perform.{exit_by, first_hop};
ghost use Rattle.net_nodes.specs.declared.site.Site.{Site};
ghost use Rattle.fabric_nodes.specs.Exits.{exit_after, exit_of_hop, walking_of};

use chdr_packets::{Body, Packet};
use chdr_words::{Management, MgmtOp, Operation};
use net_nodes::Done;

/// The ports of a node that have a link, as bits, and the port by which a packet came.
#[derive(Clone, Copy, Debug)]
pub struct Ports {
    pub linked: u32,
    pub arrival: u8,
}

impl Ports {
    /// The exit by a port: none where it has no link or is the port of arrival.
    fn exit_by(self, port: u16) -> Done
        ensures { (site : Site) → site.linked ≡ self.linked → site.arrival ≡ self.arrival → result ≡ exit_by site port }
    {
        let linked = port < 32 && (self.linked >> port) % 2 == 1;
        if linked && port != self.arrival as u16 {
            Done::Forward(port as u8)
        } else {
            Done::NoSuchPort(port)
        }
    }

    /// The exit after one more operation.
    fn exit_after(self, exit: Done, operation: Operation) -> Done
        ensures { (site : Site) → site.linked ≡ self.linked → site.arrival ≡ self.arrival →
            result ≡ exit_after site exit operation }
    {
        match operation {
            Operation::SelectDest(port) => self.exit_by(port),
            Operation::Return => Done::Return,
            Operation::Nop
            | Operation::Advertise
            | Operation::InfoReq
            | Operation::InfoResp(_)
            | Operation::CfgWrite(_)
            | Operation::CfgRead(_)
            | Operation::CfgReadResp(_)
            | Operation::Other(_) => exit,
        }
    }

    /// The exit of a hop's operations.
    pub fn exit_of_hop(self, ops: &[MgmtOp]) -> Done
        ensures { (site : Site) → site.linked ≡ self.linked → site.arrival ≡ self.arrival →
            result ≡ exit_of_hop site ops.now }
    {
        let mut exit = Done::Dead;
        for op in ops {
            exit = self.exit_after(exit, Operation::of(*op));
        }
        exit
    }
}

/// What a packet asks of the nodes on its way: a management packet for no EPID.
pub fn walking(packet: &Packet) -> Option<&Management>
    ensures { option_copied result ≡ walking_of packet.now packet.now.body }
{
    match &packet.body {
        Body::Management(m) => { if packet.dst.0 == 0 { Some(m) } else { None } }
        Body::Samples { .. } | Body::Status(_) | Body::Command(_) | Body::Control(_) => None,
    }
}

/// The operations of a packet's first hop.
pub fn first_hop(m: &Management) -> &[MgmtOp]
    ensures { result.now ≡ first_hop m.now }
{
    match m.hops.as_slice() {
        [] => &[],
        [first, ..] => first.as_slice(),
    }
}
