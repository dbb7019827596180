ghost use Rattle.std.specs.Prelude.{◌≡◌, None, Some, option_copied};
ghost use Rattle.script_worlds.specs.WorldView.{AreFoundIn, AreReady};
ghost use Rattle.script_worlds.specs.Worlds.{nothing};

use fabric_net::Net;
use graph_core::Graph;
use net_topology::Topology;
use run_plans::Layout;
use script_books::Found;
use std::alloc::Global;
use std::marker::Model;

/// What the commands of a script have left: the network, the graph, the blocks and streams, and what was found.
///
/// The banks stand beside it. After `Memory` a world is only good to be dropped.
#[derive(Drop)]
pub struct World {
    pub(crate) topology: Option<Topology>,
    pub(crate) net: Option<Net>,
    pub(crate) graph: Graph,
    pub(crate) layout: Layout,
    pub(crate) found: Option<Found>,
    pub(crate) alloc: Global,
}

impl Model for World {
    ghost use Rattle.script_worlds.specs.WorldView.{IsSound, WorldSeen, view_of};

    ghost Value = { WorldSeen };

    ghost view = { view_of };

    ghost invariant = { IsSound };
}

impl World {
    /// The world before the first command, without a network.
    pub fn new(alloc: Global) -> World
        ensures { result ≡ record { setup = nothing; net = None } }
    {
        World {
            topology: None,
            net: None,
            graph: Graph::new(alloc),
            layout: Layout::new(alloc),
            found: None,
            alloc,
        }
    }

    /// The network; none before the first net command that was done.
    pub fn topology(&self) -> Option<&Topology>
        ensures { option_copied result ≡ self.now.setup.tree }
    {
        self.topology.as_ref()
    }

    /// What the last walk of the network found.
    pub fn found(&self) -> Option<&Found>
        ensures found { option_copied result ≡ self.now.setup.found }
        ensures sound { AreFoundIn self.now.setup.tree self.now.setup.found }
    {
        self.found.as_ref()
    }

    /// Keeps what a walk of the network found, in place of what an earlier one did.
    pub fn find(&mut self, found: Found)
        requires { AreFoundIn self.old.setup.tree (Some found) }
        ensures { self.new ≡ record self.old { setup = record self.old.setup { found = Some found } } }
    {
        self.found = Some(found);
    }

    /// Takes the net out, for events to happen in it; none if there is none. Until it is put back the world can do
    /// no run.
    pub fn take_net(&mut self) -> Option<Net>
        ensures net { result ≡ self.old.net }
        ensures ready { AreReady self.old.setup.tree result }
        ensures left { self.new ≡ record self.old { net = None } }
    {
        self.net.take()
    }

    /// Puts a net of the network back, once nothing is under way in it.
    pub fn put_net(&mut self, net: Net)
        requires { AreReady self.old.setup.tree (Some net) }
        ensures { self.new ≡ record self.old { net = Some net } }
    {
        self.net = Some(net);
    }
}
