ghost use Rattle.std.specs.Prelude.{◌≡◌, ◌==◌, ◌≤◌, ◌<◌, length, slice_get, IfOk};
ghost use Rattle.net_topology.specs.Links.{link_of};
ghost use Rattle.net_topology.specs.Mapped.{HasUps};
ghost use Rattle.net_topology.specs.Parts.{part_of, way_over, HasRows};
ghost use Rattle.net_topology.specs.Tree.{IsTree, SoundBelow};

use crate::{LinkPlan, Plan};
use rf_base::{Items, Memory};
use std::alloc::Global;

/// For each node the first directed link of its way to node 0; the rows have the parts of nodes
/// before the first link, and after each.
pub(crate) fn first_ups(
    alloc: Global,
    plan: &Plan,
    rows: &[Items<u16>],
) -> Result<Items<Option<u16>>, Memory>
    requires limit { plan.now.limit ≤ 256 }
    requires tree { IsTree plan.now }
    requires rows { HasRows plan.now (length plan.now.links) rows.now }
    ensures { IfOk result (HasUps plan.now (length plan.now.nodes)) }
{
    let mut ups = Items::new(alloc);
    for x in 0..plan.nodes.len() {
        let up = first_over(plan, rows, plan.links.len(), x as u16, 0);
        ups.push(up)?;
    }
    Ok(ups)
}

/// Whether the first k links join the two nodes.
fn is_joined(plan: &Plan, rows: &[Items<u16>], k: usize, a: u16, b: u16) -> bool
    requires rows { HasRows plan.now (length plan.now.links) rows.now }
    requires links { k ≤ length plan.now.links }
    requires a { a < length plan.now.nodes }
    requires b { b < length plan.now.nodes }
    ensures { result ≡ (part_of plan.now.links k a == part_of plan.now.links k b) }
{
    let _ = plan;
    let row = rows[k].as_slice();
    row[a as usize] == row[b as usize]
}

/// The first directed link of the way over the first k links, which join the two nodes.
fn first_over(plan: &Plan, rows: &[Items<u16>], k: usize, a: u16, b: u16) -> Option<u16>
    requires rows { HasRows plan.now (length plan.now.links) rows.now }
    requires sound { SoundBelow plan.now (length plan.now.links) }
    requires few { length plan.now.links ≤ 256 }
    requires links { k ≤ length plan.now.links }
    requires a { a < length plan.now.nodes }
    requires b { b < length plan.now.nodes }
    requires joined { part_of plan.now.links k a ≡ part_of plan.now.links k b }
    ensures { result ≡ slice_get (way_over plan.now.links k a b) 0 }
{
    if k == 0 {
        return None;
    }
    let before = k - 1;
    if is_joined(plan, rows, before, a, b) {
        return first_over(plan, rows, before, a, b);
    }
    let link = link_at(plan, before);
    let number = 2 * before as u16;
    if is_joined(plan, rows, before, a, link.a) {
        if a == link.a {
            return Some(number);
        }
        return first_over(plan, rows, before, a, link.a);
    }
    if a == link.b {
        return Some(number + 1);
    }
    first_over(plan, rows, before, a, link.b)
}

/// Link k, whose nodes are there.
fn link_at(plan: &Plan, k: usize) -> LinkPlan
    requires here { k < length plan.now.links }
    requires sound { SoundBelow plan.now (length plan.now.links) }
    ensures value { result ≡ link_of plan.now.links k }
    ensures a { result.a < length plan.now.nodes }
    ensures b { result.b < length plan.now.nodes }
{
    plan.links.as_slice()[k]
}
