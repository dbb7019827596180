ghost use Rattle.std.specs.Prelude.{◌≡◌, ◌^◌, ◌<◌, ℕ, Some};
ghost use Rattle.chdr_words.specs.declared.epid.Epid.{Epid as EpidValue};
ghost use Rattle.net_topology.specs.Tree.{epid_at};

use net_topology::NodePlan;

/// The EPIDs of nodes have 16 bits, as their type says; nothing is done.
pub(crate) fn epids_are_short(nodes: &[NodePlan])
    ensures { (x : ℕ) (epid : EpidValue) → epid_at nodes.now x ≡ Some epid → epid.0 < 2 ^ 16 }
{
    for node in nodes {
        let _epid = node.epid();
    }
}
