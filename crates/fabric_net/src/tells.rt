//! What a net tells of its streams, blocks, hosts and tables.
ghost use Rattle.std.specs.Prelude.{◌≡◌, ◌↔◌, ◌<◌, length, IsTrue};
ghost use Rattle.block_library.specs.declared.kind.BlockKind.TheVariants.{Sink};
ghost use Rattle.net_topology.specs.Leads.{Leads};
ghost use Rattle.net_machine.specs.Nodes.{entry_at, exits_of, host_with};
ghost use Rattle.net_machine.specs.Plans.{block_at};
ghost use Rattle.net_machine.specs.State.{State};
ghost use Rattle.net_machine.specs.Tallies.{end_of, line_at, tally_of};
ghost use Rattle.net_present.specs.Kept.{block_now_at, now_at};
ghost use Rattle.fabric_parts.specs.Streams.{tally_now};
ghost use Rattle.fabric_net.specs.Standing.{StandsFor};
ghost use Rattle.fabric_net.specs.Telling.{end_now};

use crate::Net;
use crate::reaching::reaches;
use block_library::Line;
use chdr_words::Epid;
use fabric_lists::{blocks, sites, stream_reads};
use net_machine::{StreamEnd, Tally};

impl Net {
    /// How a stream stands.
    ///
    /// Rule: docs/machine.md, "Ends and tallies".
    pub fn end(&self, s: u16) -> StreamEnd
        requires { s < length self.now.present.streams }
        ensures present { result ≡ end_now self.now.present s }
        ensures machine { (w : State) → StandsFor self.now.present w → result ≡ end_of w s }
    {
        let closed = self.fabric.is_closed(s as usize);
        if stream_reads::is_drained(self.fabric.streams.as_slice(), s as usize, closed) {
            StreamEnd::Drained
        } else {
            stream_reads::undrained(self.fabric.streams.as_slice(), s as usize)
        }
    }

    /// What a stream did since the last run began.
    ///
    /// Rule: docs/machine.md, "Ends and tallies".
    pub fn tally(&self, s: u16) -> Tally
        requires { s < length self.now.present.streams }
        ensures present { result ≡ tally_now (now_at self.now.present.streams s) }
        ensures machine { (w : State) → StandsFor self.now.present w → result ≡ tally_of w s }
    {
        stream_reads::tally(self.fabric.streams.as_slice(), s as usize)
    }

    /// What a sink took since the last run began.
    pub fn sunk(&self, b: u16) -> Line
        requires there { b < length self.now.present.plan.blocks }
        requires sink { (block_at self.now.present.plan b).kind ≡ Sink }
        ensures present { result ≡ (block_now_at self.now.present.blocks b).line }
        ensures machine { (w : State) → StandsFor self.now.present w → result ≡ line_at w b }
    {
        blocks::line(self.fabric.blocks.as_slice(), b as usize)
    }

    /// The node of a host, and whether its port has a link; none if no host has this EPID.
    pub fn host(&self, epid: Epid) -> Option<(u16, bool)>
        ensures { result ≡ host_with self.now.present.tree epid }
    {
        let node = self.fabric.wires.node_with(epid)?;
        if self.fabric.wires.is_host(node) {
            Some((node, self.fabric.wires.link_at(node, 0).is_some()))
        } else {
            None
        }
    }

    /// Whether the packet that leaves the node of EPID `a` by its one link comes by the tables to that of EPID `b`.
    pub fn reaches(&self, a: Epid, b: Epid) -> bool
        ensures { IsTrue result ↔ Leads self.now.present.tree (exits_of self.now.present.nodes) a b }
    {
        reaches(&self.fabric, a, b)
    }

    /// The entry of a crossbar or an adapter for an EPID; none at any other node.
    pub fn entry(&self, node: u16, epid: Epid) -> Option<u8>
        ensures { result ≡ entry_at self.now.present.tree self.now.present.nodes node epid }
    {
        let x = node as usize;
        if x < self.fabric.sites.len() && self.fabric.wires.is_switch(node) {
            sites::exit(self.fabric.sites.as_slice(), x, epid)
        } else {
            None
        }
    }
}
