//! What the answers to probes tell.
ghost use Rattle.std.specs.Prelude.{◌≡◌};
ghost use Rattle.topology_walk.specs.Answers.{behind_told, hop_told, hops_told, node_told, op_told, switch_told};

use crate::probes::Behind;
use chdr_packets::{Body, Packet};
use chdr_words::{Epid, Hop, MgmtOp, NodeInfo, NodeKind, Operation};
use walk_books::FoundNode;

/// What is behind a port of a node, by the answer to its probe.
pub(crate) fn behind(answer: &Option<Packet>, node: u16, port: u8) -> Behind
    ensures { result ≡ behind_told answer.now node port }
{
    match answer {
        Some(packet) => match &packet.body {
            Body::Management(management) => by_hops(management.hops.as_slice(), node, port),
            Body::Samples { .. } | Body::Status(_) | Body::Command(_) | Body::Control(_) => {
                Behind::Bare
            }
        },
        None => Behind::Lost,
    }
}

/// A probe that comes back with more than one hop found a port without a link.
fn by_hops(hops: &[Hop], node: u16, port: u8) -> Behind
    ensures { result ≡ hops_told hops.now node port }
{
    if hops.len() == 1 {
        by_hop(hops[0].as_slice(), node, port)
    } else {
        Behind::Bare
    }
}

fn by_hop(hop: &[MgmtOp], node: u16, port: u8) -> Behind
    ensures { result ≡ hop_told hop.now node port }
{
    if hop.len() > 1 {
        by_operation(Operation::of(hop[1]), node, port)
    } else {
        Behind::Bare
    }
}

fn by_operation(operation: Operation, node: u16, port: u8) -> Behind
    ensures { result ≡ op_told operation node port }
{
    match operation {
        Operation::InfoResp(info) => Behind::Node(node_told(info, node, port)),
        Operation::Nop
        | Operation::Advertise
        | Operation::SelectDest(_)
        | Operation::Return
        | Operation::InfoReq
        | Operation::CfgWrite(_)
        | Operation::CfgRead(_)
        | Operation::CfgReadResp(_)
        | Operation::Other(_) => Behind::Bare,
    }
}

/// The node behind a port of a node, by what it tells of itself.
fn node_told(info: NodeInfo, node: u16, port: u8) -> FoundNode
    ensures { result ≡ node_told info.kind info node port }
{
    match info.kind {
        NodeKind::Crossbar => switch_told(NodeKind::Crossbar, info, node, port),
        NodeKind::Transport => switch_told(NodeKind::Transport, info, node, port),
        NodeKind::Endpoint => FoundNode {
            instance: info.instance,
            kind: NodeKind::Endpoint,
            ports: 1,
            epid: Epid((info.extended % 65536) as u16),
            parent: node,
            parent_port: port,
            port: 0,
        },
        NodeKind::Other(code) => FoundNode {
            instance: info.instance,
            kind: NodeKind::Other(code),
            ports: 0,
            epid: Epid(0),
            parent: node,
            parent_port: port,
            port: 0,
        },
    }
}

/// A crossbar or an adapter tells its number of ports and the port of arrival.
fn switch_told(kind: NodeKind, info: NodeInfo, node: u16, port: u8) -> FoundNode
    ensures { result ≡ switch_told kind info node port }
{
    FoundNode {
        instance: info.instance,
        kind,
        ports: (info.extended % 256) as u8,
        epid: Epid(0),
        parent: node,
        parent_port: port,
        port: (info.extended / 256 % 256) as u8,
    }
}
