use chdr_words::Epid;

/// The tables of a network's nodes, as far as they lead packets.
pub trait Reaches {
    ghost use Rattle.std.specs.Prelude.{◌↔◌, IsTrue, List};
    ghost use Rattle.net_machine.specs.Nodes.{exits_of};
    ghost use Rattle.net_machine.specs.State.{Node};
    ghost use Rattle.net_topology.specs.Leads.{Leads};
    ghost use Rattle.net_topology.specs.declared.plan.Plan.{Plan};

    /// The network.
    ghost tree: { Self → Plan };

    /// Its nodes.
    ghost nodes: { Self → List Node };

    /// Whether a packet from the node of EPID `a` comes by the tables to that of EPID `b`.
    fn reaches(&self, a: Epid, b: Epid) -> bool
        ensures { IsTrue result ↔ Leads (tree self.now) (exits_of (nodes self.now)) a b };
}
