ghost use Rattle.std.specs.Prelude.{◌≡◌, ◌↔◌, ◌+◌, ◌≤◌, ◌<◌, ◌^◌, IsTrue, map, length, IfOk, IfSome};
ghost use Rattle.net_nodes.specs.Operations.{asked_in};
ghost use Rattle.net_nodes.specs.Perform.{first_hop, last_hop, performed, without_first, work_of};
ghost use Rattle.net_nodes.specs.Switch.{FitsAdapter, MakesAdapter, adapter_site};
ghost use Rattle.net_nodes.specs.Table.{no_exit, exit_of, with_exit};

use crate::switch::within;
use crate::{Done, Room, Switch};
use chdr_words::{Epid, EpidList, Management, NodeKind};
use rf_base::Memory;
use std::alloc::Global;
use std::marker::Model;

/// A transport adapter: a node of two ports that passes packets on by its table.
#[derive(Debug, Drop)]
pub struct Adapter {
    switch: Switch,
}

impl Model for Adapter {
    ghost use Rattle.net_nodes.specs.declared.switch.Switch.{Switch};
    ghost use Rattle.net_nodes.specs.Switch.{FitsAdapter};

    ghost Value = { Switch };

    ghost view = { λ node. node.switch };

    ghost invariant = { λ node. FitsAdapter node.switch };
}

#[tactic(auto, using(crate::proofs::EntryLemmas::entry_lemmas))]
impl Adapter {
    /// Whether `new` makes a node of these: exactly what it asks for.
    pub fn fits(instance: u16, ports: u8, linked: u32) -> bool
        ensures { IsTrue result ↔ MakesAdapter instance ports linked }
    {
        ports == 2 && instance < 1024 && within(linked, ports)
    }

    /// The node with a place for each EPID and no entries; bit p of `linked` says that port p has
    /// a link.
    pub fn new(
        alloc: Global,
        instance: u16,
        ports: u8,
        linked: u32,
        epids: &EpidList,
    ) -> Result<Adapter, Memory>
        requires instance { instance < 1024 }
        requires two { ports ≡ 2 }
        requires linked { linked < 2 ^ ports }
        ensures { IfOk result (λ node. node ≡ record {
          instance = instance;
          ports = ports;
          linked = linked;
          table = map no_exit epids.now;
        }) }
    {
        let switch = Switch::new(alloc, instance, ports, linked, epids)?;
        Ok(Adapter { switch })
    }

    /// Whether the node has a port of this number.
    pub fn has_port(&self, port: u8) -> bool
        ensures value { IsTrue result ↔ port < self.now.ports }
        ensures fits { FitsAdapter self.now }
    {
        port < self.switch.ports
    }

    /// The port by which packets to an EPID leave.
    pub fn route(&self, dst: Epid) -> Option<u8>
        ensures value { result ≡ exit_of self.now.table dst }
        ensures port { IfSome result (λ port. port < self.now.ports) }
    {
        self.switch.table.exit(dst)
    }

    /// Makes the port the entry of an EPID that has a place; another EPID changes nothing.
    pub fn set(&mut self, dst: Epid, port: u8)
        requires { port < self.old.ports }
        ensures { self.new ≡ record self.old { table = with_exit self.old.table dst port } }
    {
        self.switch.table.set(dst, port);
    }

    /// Performs the first hop of a packet that came by a port, and takes it off.
    ///
    /// `room` is from `reserve_answers`. Rule: docs/control-and-discovery.md, "Hops".
    pub fn perform(&mut self, m: &mut Management, port_in: u8, room: Room) -> Done
        requires port { port_in < self.old.ports }
        requires hops { 2 ≤ length m.old.hops }
        requires room { length (last_hop m.old) + asked_in (first_hop m.old) ≤ room }
        ensures work { work_of self.new.table result (last_hop m.new)
            ≡ performed (adapter_site self.old port_in) self.old.table m.old }
        ensures kept { self.new ≡ record self.old { table = self.new.table } }
        ensures packet { m.new ≡ without_first m.old (last_hop m.new) }
    {
        self.switch.perform(NodeKind::Transport, m, port_in, room)
    }
}
