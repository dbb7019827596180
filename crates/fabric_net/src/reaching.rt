//! Where the tables of a net lead.
ghost use Rattle.std.specs.Prelude.{◌≡◌, ◌↔◌, ◌<◌, ◌≤◌, IsTrue, List, ℕ, length};
ghost use Rattle.net_topology.specs.Leads.{Leads, LeadsOver};
ghost use Rattle.net_topology.specs.Ranks.{rank_of};
ghost use Rattle.net_topology.specs.Tree.{IsTree};
ghost use Rattle.net_machine.specs.Nodes.{exits_of};
ghost use Rattle.net_machine.specs.Queues.{link_count};
ghost use Rattle.fabric_events.specs.Fabrics.{IsSound, present_of};

use chdr_words::Epid;
use fabric_events::Fabric;

/// Whether the packet that leaves the node of EPID `a` by its one link comes by the tables to that of EPID `b`.
pub(crate) fn reaches(fabric: &Fabric, a: Epid, b: Epid) -> bool
    requires { IsSound fabric.now }
    ensures { IsTrue result ↔ Leads fabric.now.wires (exits_of (present_of fabric.now).nodes) a b }
{
    match (fabric.wires.first_link(a), fabric.wires.node_with(b)) {
        (Some(d), Some(target)) => {
            let nodes = fabric.wires.plan().nodes.len();
            leads_from(fabric, d, b, target, nodes)
        }
        (None, _) | (Some(_), None) => false,
    }
}

/// Whether the tables lead a packet that came over d to a node, over at most `k` more links.
fn leads_from(fabric: &Fabric, d: u16, dst: Epid, target: u16, k: usize) -> bool
    requires sound { IsSound fabric.now }
    requires tree { IsTree fabric.now.wires }
    requires there { d < link_count fabric.now.wires }
    requires rank { rank_of fabric.now.wires d ≤ k }
    ensures { IsTrue result ↔ ((ds : List ℕ) ×
        LeadsOver fabric.now.wires (exits_of (present_of fabric.now).nodes) dst d ds target) }
{
    let (node, _) = fabric.wires.end_at(d);
    if node == target {
        return true;
    }
    match fabric.table_onward(d, dst) {
        Some(e) => k > 0 && leads_from(fabric, e, dst, target, k - 1),
        None => false,
    }
}
