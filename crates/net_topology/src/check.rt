ghost use Rattle.std.specs.Prelude.{◌≡◌, ◌+◌, ◌*◌, ◌^◌, ◌<◌, ◌≤◌, ◌↔◌, ℕ, IsTrue, MatchOption, length, map, All, IfOk, OnOk, IfErr, slice_index, ◌==◌, if◌then◌else◌};
ghost use Rattle.chdr_words.specs.declared.epid.Epid.{Epid};
ghost use Rattle.net_topology.specs.Links.{link_of, IsJoined};
ghost use Rattle.net_topology.specs.Parts.{IsRow, HasRows};
ghost use Rattle.net_topology.specs.Tree.{FitsNode, HasPorts, IsPortTwice, IsCycle, IsSound, SoundBelow, HasGoodNodes, DistinctBelow, IsDuplicate, IsReached, IsTree, IsFault, epid_at, port_count, shares_port};

use crate::{LinkPlan, NodePlan, Plan};
use chdr_words::Epid;
use rf_base::{Items, Memory};
use std::alloc::{AllocError, Global};
use thiserror::Error;

/// Why a plan is no tree. If several hold, it is the first in this order, and of those on links
/// the first link's.
///
/// Rule: docs/control-and-discovery.md, "Trees".
#[derive(Clone, Copy, Debug, PartialEq, Eq, Error)]
pub enum PlanFault {
    /// More nodes than the limit; their number, or 2^32 - 1 if they are more.
    #[error("TooManyNodes {count}")]
    TooManyNodes { count: u32 },
    /// The first node whose EPID an earlier node has.
    #[error("DuplicateEpid {}", .epid.0)]
    DuplicateEpid { epid: Epid },
    /// A node or a port of this link isn't there.
    #[error("BadPort {link}")]
    BadPort { link: u16 },
    /// A port of this link is used by an earlier link.
    #[error("PortTwice {link}")]
    PortTwice { link: u16 },
    /// The nodes of this link are the same, or already joined by earlier links.
    #[error("Cycle {link}")]
    Cycle { link: u16 },
    /// The first node that isn't joined to node 0.
    #[error("Apart {node}")]
    Apart { node: u16 },
    /// The room isn't 1 to 64.
    #[error("BadLinkRoom {room}")]
    BadLinkRoom { room: u32 },
    #[error("out of memory")]
    Memory,
}

impl From<AllocError> for PlanFault {
    ghost use Rattle.net_topology.specs.declared.check.PlanFault.{PlanFault};

    ghost from_gives = { λ _ fault. fault ≡ PlanFault.Memory };

    fn from(_: AllocError) -> PlanFault {
        PlanFault::Memory
    }
}

impl From<Memory> for PlanFault {
    ghost use Rattle.net_topology.specs.declared.check.PlanFault.{PlanFault};

    ghost from_gives = { λ _ fault. fault ≡ PlanFault.Memory };

    fn from(_: Memory) -> PlanFault {
        PlanFault::Memory
    }
}

fn check_count(plan: &Plan) -> Result<(), PlanFault>
    ensures ok { OnOk result (length plan.now.nodes ≤ plan.now.limit) }
    ensures err { IfErr result (IsFault plan.now) }
{
    let count = plan.nodes.len();
    if count > plan.limit as usize {
        let count = count.min(u32::MAX as usize) as u32;
        return Err(PlanFault::TooManyNodes { count });
    }
    Ok(())
}

/// Whether one of the first nodes has the EPID.
fn has_epid_below(nodes: &[NodePlan], end: usize, epid: Epid) -> bool
    requires { end ≤ length nodes.now }
    ensures { IsTrue result ↔ ((x : ℕ) × (x < end) × (epid_at nodes.now x ≡ Some epid)) }
{
    for x in 0..end {
        if nodes[x].epid() == Some(epid) {
            return true;
        }
    }
    false
}

/// The EPID of a node, if an earlier node has it.
fn duplicate_at(plan: &Plan, x: usize) -> Option<Epid>
    requires { x < length plan.now.nodes }
    ensures { MatchOption result
        ((epid : Epid) → ¬ IsDuplicate plan.now.nodes x epid)
        (IsDuplicate plan.now.nodes x) }
{
    let nodes = plan.nodes.as_slice();
    let epid = nodes[x].epid()?;
    if has_epid_below(nodes, x, epid) {
        Some(epid)
    } else {
        None
    }
}

fn check_epids(plan: &Plan) -> Result<(), PlanFault>
    requires { length plan.now.nodes ≤ plan.now.limit }
    ensures ok { OnOk result (DistinctBelow plan.now.nodes (length plan.now.nodes)) }
    ensures err { IfErr result (IsFault plan.now) }
{
    for x in 0..plan.nodes.len() {
        match duplicate_at(plan, x) {
            Some(epid) => return Err(PlanFault::DuplicateEpid { epid }),
            None => {}
        }
    }
    Ok(())
}

/// Each node in a part of its own.
fn first_row(alloc: Global, count: usize) -> Result<Items<u16>, Memory>
    requires { count ≤ 256 }
    ensures wide { IfOk result (λ row. length row ≡ count) }
    ensures names { IfOk result (λ row. (x : ℕ) → x < count → slice_index row x ≡ x) }
{
    let mut row = Items::new(alloc);
    for x in 0..count {
        row.push(x as u16)?;
    }
    Ok(row)
}

/// The parts once link k stands too.
fn next_row(alloc: Global, plan: &Plan, k: usize, row: &[u16]) -> Result<Vec<u16>, AllocError>
    requires here { k < length plan.now.links }
    requires ports { HasPorts plan.now.nodes (link_of plan.now.links k) }
    requires row { IsRow plan.now k row.now }
    ensures { IfOk result (λ next. IsRow plan.now (k + 1) next.items) }
{
    let link = plan.links.as_slice()[k];
    renamed_row(alloc, row, row[link.a as usize], row[link.b as usize])
}

/// The row with a new name in place of an old one.
fn renamed_row(alloc: Global, row: &[u16], new: u16, old: u16) -> Result<Vec<u16>, AllocError>
    ensures { IfOk result (λ next. next.items
        ≡ map (λ name. if name == old then new else name) row.now) }
{
    row.iter()
        .map(|name| if *name == old { new } else { *name })
        .collect(alloc)
}

fn has_ports(nodes: &[NodePlan], link: LinkPlan) -> bool
    ensures { IsTrue result ↔ HasPorts nodes.now link }
{
    link.a_port < ports_at(nodes, link.a) && link.b_port < ports_at(nodes, link.b)
}

fn ports_at(nodes: &[NodePlan], node: u16) -> u8
    ensures { result ≡ port_count nodes.now node }
{
    match nodes.get(node as usize) {
        Some(node) => node.ports(),
        None => 0,
    }
}

fn is_port_twice(links: &[LinkPlan], k: usize) -> bool
    requires { k < length links.now }
    ensures { IsTrue result ↔ IsPortTwice links.now k }
{
    let link = links[k];
    for j in 0..k {
        if links[j].shares_port(link) {
            return true;
        }
    }
    false
}

/// Whether the first k links join the nodes; `row` has the parts that these links leave.
fn is_joined(plan: &Plan, k: usize, row: &[u16], a: u16, b: u16) -> bool
    requires row { IsRow plan.now k row.now }
    requires a { a < length plan.now.nodes }
    requires b { b < length plan.now.nodes }
    ensures { IsTrue result ↔ IsJoined plan.now.links k a b }
{
    let _ = plan;
    let _ = k;
    row[a as usize] == row[b as usize]
}

fn check_link(plan: &Plan, k: usize, row: &[u16]) -> Result<(), PlanFault>
    requires here { k < length plan.now.links }
    requires number { k < 2 ^ 16 }
    requires nodes { HasGoodNodes plan.now }
    requires sound { SoundBelow plan.now k }
    requires row { IsRow plan.now k row.now }
    ensures ok { OnOk result (IsSound plan.now k) }
    ensures err { IfErr result (IsFault plan.now) }
{
    let link = plan.links.as_slice()[k];
    let number = k as u16;
    if !has_ports(plan.nodes.as_slice(), link) {
        return Err(PlanFault::BadPort { link: number });
    }
    if is_port_twice(plan.links.as_slice(), k) {
        return Err(PlanFault::PortTwice { link: number });
    }
    if is_joined(plan, k, row, link.a, link.b) {
        return Err(PlanFault::Cycle { link: number });
    }
    Ok(())
}

/// Joins the nodes link by link, and returns the parts before the first link and after each.
fn check_links(alloc: Global, plan: &Plan) -> Result<Items<Items<u16>>, PlanFault>
    requires limit { plan.now.limit ≤ 256 }
    requires nodes { HasGoodNodes plan.now }
    ensures ok { IfOk result (λ rows. SoundBelow plan.now (length plan.now.links)
        × HasRows plan.now (length plan.now.links) rows) }
    ensures err { IfErr result (IsFault plan.now) }
{
    let mut rows = Items::new(alloc);
    rows.push(first_row(alloc, plan.nodes.len())?)?;
    for k in 0..plan.links.len() {
        let row = rows.as_slice()[k].as_slice();
        check_link(plan, k, row)?;
        let next = next_row(alloc, plan, k, row)?;
        rows.push(Items::from_vec(next))?;
    }
    Ok(rows)
}

/// `row` has the parts that all links of the plan leave.
fn check_joined(plan: &Plan, row: &[u16]) -> Result<(), PlanFault>
    requires limit { plan.now.limit ≤ 256 }
    requires nodes { HasGoodNodes plan.now }
    requires sound { SoundBelow plan.now (length plan.now.links) }
    requires row { IsRow plan.now (length plan.now.links) row.now }
    ensures ok { OnOk result
        ((x : ℕ) → x < length plan.now.nodes → IsReached plan.now x) }
    ensures err { IfErr result (IsFault plan.now) }
{
    for x in 0..row.len() {
        let node = x as u16;
        if !is_joined(plan, plan.links.len(), row, 0, node) {
            return Err(PlanFault::Apart { node });
        }
    }
    Ok(())
}

/// The parts that the links of a tree leave, or the first refusal that holds.
pub(crate) fn check_tree(alloc: Global, plan: &Plan) -> Result<Items<Items<u16>>, PlanFault>
    requires { plan.now.limit ≤ 256 }
    ensures ok { IfOk result (λ rows. IsTree plan.now
        × HasRows plan.now (length plan.now.links) rows) }
    ensures err { IfErr result (IsFault plan.now) }
{
    check_count(plan)?;
    check_epids(plan)?;
    let rows = check_links(alloc, plan)?;
    check_joined(plan, rows.as_slice()[plan.links.len()].as_slice())?;
    if plan.room < 1 || plan.room > 64 {
        return Err(PlanFault::BadLinkRoom { room: plan.room });
    }
    Ok(rows)
}
