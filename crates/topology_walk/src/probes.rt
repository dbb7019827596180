//! One probe of what is behind a port.
ghost use Rattle.std.specs.Prelude.{◌≡◌, IfOk};
ghost use Rattle.host_talk.specs.Settled.{IsSettledNow};
ghost use Rattle.topology_walk.specs.Walks.{HasProbed, IsSource, LeadsBehind};

use crate::answers::behind;
use crate::packets::probe_packet;
use block_registers::RegisterSlots;
use chdr_words::Epid;
use fabric_net::Net;
use host_talk::talk;
use rf_base::Memory;
use std::alloc::Global;
use walk_books::FoundNode;

/// What is behind a port.
#[derive(Clone, Copy, Debug, PartialEq, Eq)]
pub(crate) enum Behind {
    Node(FoundNode),
    /// Nothing: the port has no link.
    Bare,
    /// Nobody knows: the probe or its answer was lost.
    Lost,
}

/// The host that walks: its node and its EPID.
#[derive(Clone, Copy, Debug, PartialEq, Eq)]
pub(crate) struct Source {
    pub(crate) node: u16,
    pub(crate) epid: Epid,
}

/// Probes what is behind a port of a found node; by these ports the probe leaves the nodes on its way.
pub(crate) fn probe<B: RegisterSlots>(
    alloc: Global,
    net: &mut Net,
    banks: &mut B,
    source: Source,
    node: FoundNode,
    port: u8,
    ports: &[u8],
) -> Result<Behind, Memory>
    requires settled { IsSettledNow net.old.present }
    requires source { IsSource net.old.present.tree source.node source.epid }
    requires leads { LeadsBehind net.old.present.tree source.node node port ports.now }
    ensures { IfOk result (λ behind. HasProbed net.old.present.tree source.epid source.node net.old (B.slots banks.old)
        node.instance port behind net.new (B.slots banks.new)) }
{
    net.stands();
    let packet = probe_packet(alloc, source.epid, ports)?;
    let answer = talk(net, banks, source.node, packet)?;
    Ok(behind(&answer, node.instance, port))
}
