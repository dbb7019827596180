ghost use Rattle.std.specs.Prelude.{◌≡◌, [], IfOk, IsSome, OnOk};
ghost use Rattle.found_nodes.specs.Found.{AreFound};
ghost use Rattle.net_machine.specs.Nodes.{host_with};
ghost use Rattle.host_talk.specs.Settled.{IsSettledNow};
ghost use Rattle.topology_walk.specs.Discovery.{IsDiscovered};
ghost use Rattle.topology_walk.specs.Whole.{AreAllNodes};

use crate::probes::Source;
use crate::walk::{Walk, walk_on};
use block_registers::RegisterSlots;
use chdr_words::Epid;
use fabric_net::Net;
use rf_base::Memory;
use std::alloc::Global;
use walk_books::Found;

/// Walks from the host of an EPID: for each node that is found, in order, each of its ports but that by which it was
/// found is probed, ascending.
///
/// At `Err` the net is only good to be built anew. Rule: docs/control-and-discovery.md, "Discovery and routes".
pub fn discover<B: RegisterSlots>(
    alloc: Global,
    net: &mut Net,
    banks: &mut B,
    host: Epid,
) -> Result<Found, Memory>
    requires host { IsSome (host_with net.old.present.tree host) }
    requires settled { IsSettledNow net.old.present }
    ensures found { IfOk result (λ found. AreFound net.old.present.tree found.nodes) }
    ensures settled { OnOk result (IsSettledNow net.new.present) }
    ensures tree { OnOk result (net.new.present.tree ≡ net.old.present.tree) }
    ensures whole { IfOk result (λ found. found.lost ≡ [] → AreAllNodes net.old.present.tree found.nodes) }
    ensures walked { IfOk result (λ found. IsDiscovered net.old (B.slots banks.old) host found net.new (B.slots banks.new)) }
{
    let (node, linked) = match net.host(host) {
        Some(found) => found,
        None => unreachable!(),
    };
    net.stands();
    let source = Source { node, epid: host };
    let mut walk = Walk::new(alloc, source)?;
    if !linked {
        walk.found.bare = 1;
        return Ok(walk.into_found());
    }
    walk_on(alloc, net, banks, source, &mut walk)?;
    Ok(walk.into_found())
}
