ghost use Rattle.std.specs.Prelude.{◌≡◌, ◌↔◌, ◌+◌, ◌≤◌, ◌<◌, ◌^◌, IsTrue, map, length, IfOk};
ghost use Rattle.chdr_words.specs.NodeInfo.{FitsInfo, FitsNodeKind};
ghost use Rattle.net_nodes.specs.Operations.{asked_in};
ghost use Rattle.net_nodes.specs.Perform.{first_hop, last_hop, performed, without_first, work_of};
ghost use Rattle.net_nodes.specs.Switch.{switch_site};
ghost use Rattle.net_nodes.specs.Table.{no_exit};

use crate::hop::perform_hop;
use crate::{Done, Room, Site, Table};
use chdr_words::{EpidList, Management, NodeInfo, NodeKind};
use rf_base::Memory;
use std::alloc::Global;

/// What a crossbar and an adapter are made of.
#[derive(Debug, Drop)]
pub struct Switch {
    /// The node's number, below 1,024.
    pub instance: u16,
    /// 1 to 32.
    pub ports: u8,
    /// Bit p says that port p has a link.
    pub linked: u32,
    pub table: Table,
}

impl Switch {
    /// A place for each EPID and no entries.
    pub(crate) fn new(
        alloc: Global,
        instance: u16,
        ports: u8,
        linked: u32,
        epids: &EpidList,
    ) -> Result<Switch, Memory>
        ensures { IfOk result (λ switch. switch ≡ record {
          instance = instance;
          ports = ports;
          linked = linked;
          table = map no_exit epids.now;
        }) }
    {
        let table = Table::new(alloc, epids)?;
        Ok(Switch {
            instance,
            ports,
            linked,
            table,
        })
    }

    /// Performs the first hop of a packet that came by a port to a node of this kind.
    pub(crate) fn perform(
        &mut self,
        kind: NodeKind,
        m: &mut Management,
        port_in: u8,
        room: Room,
    ) -> Done
        requires kind { FitsNodeKind kind }
        requires instance { self.old.instance < 1024 }
        requires ports { self.old.ports ≤ 32 }
        requires port { port_in < self.old.ports }
        requires hops { 2 ≤ length m.old.hops }
        requires room { length (last_hop m.old) + asked_in (first_hop m.old) ≤ room }
        ensures work { work_of self.new.table result (last_hop m.new)
            ≡ performed (switch_site kind self.old port_in) self.old.table m.old }
        ensures kept { self.new ≡ record self.old { table = self.new.table } }
        ensures packet { m.new ≡ without_first m.old (last_hop m.new) }
    {
        let site = self.site(kind, port_in);
        perform_hop(&site, &mut self.table, m, room)
    }

    fn site(&self, kind: NodeKind, arrival: u8) -> Site
        requires kind { FitsNodeKind kind }
        requires instance { self.now.instance < 1024 }
        requires ports { self.now.ports ≤ 32 }
        requires port { arrival < self.now.ports }
        ensures value { result ≡ switch_site kind self.now arrival }
        ensures fits { FitsInfo result.info }
    {
        let ports = self.ports;
        Site {
            info: NodeInfo {
                device: 1,
                kind,
                instance: self.instance,
                extended: ports as u32 + 256 * arrival as u32,
            },
            ports,
            linked: self.linked,
            arrival,
        }
    }
}

/// Whether each bit of `linked` is that of one of the ports.
#[tactic(auto, using(crate::proofs::SiteLemmas::one_shifted))]
pub(crate) fn within(linked: u32, ports: u8) -> bool
    requires { ports ≤ 32 }
    ensures { IsTrue result ↔ linked < 2 ^ ports }
{
    (linked as u64) < 1u64 << ports
}
