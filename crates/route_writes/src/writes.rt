//! Writes at the nodes of a way, one after another.
ghost use Rattle.std.specs.Prelude.{◌≡◌, ℕ, IfOk};
ghost use Rattle.host_talk.specs.Settled.{IsSettledNow};
ghost use Rattle.route_writes.specs.Planned.{IsCrossing, IsPlanned, route_at};
ghost use Rattle.route_writes.specs.Routing.{IsRouted};
ghost use Rattle.route_writes.specs.Writes.{HasCrossed};

use crate::RouteFault;
use crate::packets::{Entry, write_packet};
use crate::steps::{Step, add_way};
use block_registers::RegisterSlots;
use chdr_words::Epid;
use fabric_net::Net;
use host_talk::talk;
use rf_base::{Items, Memory};
use std::alloc::Global;
use walk_books::FoundNode;

/// The ends of a route, and the host that writes it.
#[derive(Clone, Copy, Debug, PartialEq, Eq)]
pub(crate) struct Ends {
    /// The number of the host's node.
    pub(crate) node: u16,
    pub(crate) host: Epid,
    pub(crate) a: Epid,
    pub(crate) b: Epid,
}

/// Writes the entries for both ends at each node between the first step and the last, in order, and returns how many
/// these are.
pub(crate) fn write_along<B: RegisterSlots>(
    alloc: Global,
    net: &mut Net,
    banks: &mut B,
    nodes: &[FoundNode],
    ends: Ends,
    steps: &[Step],
) -> Result<u32, RouteFault>
    requires settled { IsSettledNow net.old.present }
    requires planned { IsPlanned net.old.present.tree nodes.now ends steps.now }
    ensures { IsRouted (route_at net.old.present.tree ends) (record { net = net.old; banks = B.slots banks.old }) result
        (record { net = net.new; banks = B.slots banks.new }) }
{
    let mut count: u32 = 0;
    for index in 1..steps.len() {
        let before = steps[index - 1];
        let behind = steps[index];
        let came = write_at(alloc, net, banks, nodes, ends, before, behind)?;
        if !came {
            return Err(RouteFault::Lost {
                instance: before.node,
            });
        }
        count += 1;
    }
    Ok(count)
}

/// Writes the entries for both ends at the node between two steps; whether the answer came.
fn write_at<B: RegisterSlots>(
    alloc: Global,
    net: &mut Net,
    banks: &mut B,
    nodes: &[FoundNode],
    ends: Ends,
    before: Step,
    behind: Step,
) -> Result<bool, Memory>
    requires settled { IsSettledNow net.old.present }
    requires crossing { (d : ℕ) × (e : ℕ) × IsCrossing net.old.present.tree nodes.now ends before behind d e }
    ensures { IfOk result (λ came. (d : ℕ) (e : ℕ) → IsCrossing net.old.present.tree nodes.now ends before behind d e →
        HasCrossed (route_at net.old.present.tree ends) d e came
        (record { net = net.old; banks = B.slots banks.old }) (record { net = net.new; banks = B.slots banks.new })) }
{
    net.stands();
    let mut steps = Items::new(alloc);
    add_way(nodes, ends.node, before.node, &mut steps)?;
    let a = Entry {
        epid: ends.a,
        port: before.arrival,
    };
    let b = Entry {
        epid: ends.b,
        port: behind.port,
    };
    let packet = write_packet(alloc, ends.host, steps.as_slice(), a, b)?;
    let answer = talk(net, banks, ends.node, packet)?;
    Ok(answer.is_some())
}
