ghost use Rattle.std.specs.Prelude.{◌≡◌, ◌↔◌, ◌-◌, ◌*◌, ◌^◌, ◌<◌, [], ◌∷◌, IsTrue, MatchOption, length, IfOk, IfErr, IfSome};
ghost use Rattle.net_topology.specs.Links.{IsWay, back_of, start_of, end_of, start_port, end_port, link_of, link_at, neighbour_at};
ghost use Rattle.net_topology.specs.Parts.{way_of};
ghost use Rattle.net_topology.specs.Next.{next_of};
ghost use Rattle.net_topology.specs.Tree.{FitsPlan, IsTree, IsChecked, IsFault, node_with};

use crate::check::check_tree;
use crate::ups::first_ups;
use crate::{LinkNumbers, LinkPlan, NodePlan, Plan, PlanFault};
use chdr_words::Epid;
use rf_base::{Copyable, Items, Memory};
use std::alloc::Global;
use std::marker::Model;

/// A plan that was checked and is a tree; contracts see it as that plan.
#[derive(Debug, Drop)]
pub struct Topology {
    plan: Plan,
    /// The first directed link of each node's way to node 0.
    ups: Items<Option<u16>>,
    alloc: Global,
}

impl Model for Topology {
    ghost use Rattle.net_topology.specs.declared.plan.Plan.{Plan};
    ghost use Rattle.net_topology.specs.Mapped.{IsMapped};

    ghost Value = { Plan };

    ghost view = { λ topology. topology.plan };

    ghost invariant = { λ topology. IsMapped topology.plan topology.ups };
}

impl Topology {
    /// The tree of the plan, or the first refusal that holds.
    ///
    /// Rule: docs/control-and-discovery.md, "Trees".
    pub fn check(alloc: Global, plan: &Plan) -> Result<Topology, PlanFault>
        requires { FitsPlan plan.now }
        ensures tree { IfOk result (λ topology. (topology ≡ plan.now) × IsTree topology) }
        ensures fault { IfErr result (IsFault plan.now) }
    {
        let rows = check_tree(alloc, plan)?;
        let ups = first_ups(alloc, plan, rows.as_slice())?;
        let plan = plan.copy()?;
        Ok(Topology { plan, ups, alloc })
    }

    /// The plan that was checked.
    pub fn plan(&self) -> &Plan
        ensures same { result.now ≡ self.now }
        ensures tree { IsChecked self.now }
    {
        &self.plan
    }

    /// Whether there is a node of this number.
    pub fn has_node(&self, node: u16) -> bool
        ensures { IsTrue result ↔ node < length self.now.nodes }
    {
        (node as usize) < self.plan.nodes.len()
    }

    /// Whether there is a directed link of this number.
    pub fn has_link(&self, d: u16) -> bool
        ensures { IsTrue result ↔ d < 2 * length self.now.links }
    {
        ((d / 2) as usize) < self.plan.links.len()
    }

    /// The node at which directed link d starts, and the port by which it leaves that node.
    pub fn start_at(&self, d: u16) -> (u16, u8)
        requires { d < 2 * length self.now.links }
        ensures value { result ≡ (start_of self.now.links d, start_port self.now.links d) }
        ensures there { result.0 < length self.now.nodes }
    {
        let link = self.link((d / 2) as usize);
        if d % 2 == 0 {
            (link.a, link.a_port)
        } else {
            (link.b, link.b_port)
        }
    }

    /// The node at which directed link d ends, and the port by which it comes to that node.
    pub fn end_at(&self, d: u16) -> (u16, u8)
        requires { d < 2 * length self.now.links }
        ensures value { result ≡ (end_of self.now.links d, end_port self.now.links d) }
        ensures there { result.0 < length self.now.nodes }
    {
        let link = self.link((d / 2) as usize);
        if d % 2 == 0 {
            (link.b, link.b_port)
        } else {
            (link.a, link.a_port)
        }
    }

    /// The first directed link of the way from node a to node b; none from a node to itself.
    ///
    /// It follows the links that lead from b to node 0, and so takes at most as many steps as the
    /// way there has links.
    pub fn next(&self, a: u16, b: u16) -> Option<u16>
        requires a { a < length self.now.nodes }
        requires b { b < length self.now.nodes }
        ensures value { result ≡ next_of self.now.links a b }
        ensures there { IfSome result (λ d. d < 2 * length self.now.links) }
        ensures way { MatchOption result
            (way_of self.now.links a b ≡ [])
            (λ d. way_of self.now.links a b ≡ d ∷ way_of self.now.links (end_of self.now.links d) b) }
    {
        let _ = &self.plan;
        if a == b {
            return None;
        }
        let mut node = b;
        while let Some(up) = self.up(node) {
            let (parent, _) = self.end_at(up);
            if parent == a {
                return Some(back_of(up));
            }
            node = parent;
        }
        self.up(a)
    }

    /// The directed links from node a to node b; no node is passed twice.
    pub fn path(&self, a: u16, b: u16) -> Result<LinkNumbers, Memory>
        requires a { a < length self.now.nodes }
        requires b { b < length self.now.nodes }
        ensures value { IfOk result (λ way. way ≡ way_of self.now.links a b) }
        ensures way { IfOk result (λ way. IsWay self.now.links a b way) }
    {
        let mut way = Items::new(self.alloc);
        let mut node = a;
        while let Some(d) = self.next(node, b) {
            way.push(d)?;
            node = self.end_at(d).0;
        }
        Ok(way)
    }

    /// The first directed link of a node's way to node 0.
    fn up(&self, node: u16) -> Option<u16>
        requires { node < length self.now.nodes }
        ensures { result ≡ next_of self.now.links node 0 }
    {
        self.ups.as_slice()[node as usize]
    }

    /// Link k, whose nodes are there.
    fn link(&self, k: usize) -> LinkPlan
        requires { k < length self.now.links }
        ensures value { result ≡ link_of self.now.links k }
        ensures a { result.a < length self.now.nodes }
        ensures b { result.b < length self.now.nodes }
        ensures few { k < 256 }
    {
        self.plan.links.as_slice()[k]
    }

    /// The directed link that leaves a node by a port.
    #[tactic(auto, using(crate::proofs::LinkLemmas::link_lemmas))]
    pub fn link_at(&self, node: u16, port: u8) -> Option<u16>
        ensures value { result ≡ link_at self.now.links node port }
        ensures there { IfSome result (λ d. d < 2 * length self.now.links) }
    {
        for k in 0..self.plan.links.len() {
            let link = self.plan.links.as_slice()[k];
            let number = 2 * k as u16;
            if link.a == node && link.a_port == port {
                return Some(number);
            }
            if link.b == node && link.b_port == port {
                return Some(number + 1);
            }
        }
        None
    }

    /// The node and the port at the other end of a port's link.
    pub fn neighbour(&self, node: u16, port: u8) -> Option<(u16, u8)>
        ensures { result ≡ neighbour_at self.now.links node port }
    {
        let number = self.link_at(node, port)?;
        Some(self.end_at(number))
    }

    /// The node that has the EPID.
    pub fn node_of(&self, e: Epid) -> Option<u16>
        ensures { result ≡ node_with self.now.nodes e }
    {
        match first_with(self.plan.nodes.as_slice(), e) {
            Some(node) => Some(node as u16),
            None => None,
        }
    }
}

/// The same link the other way.
fn back_of(d: u16) -> u16
    requires { d < 2 ^ 16 - 1 }
    ensures { result ≡ back_of d }
{
    if d % 2 == 0 { d + 1 } else { d - 1 }
}

fn first_with(nodes: &[NodePlan], epid: Epid) -> Option<usize>
    ensures value { result ≡ node_with nodes.now epid }
    ensures there { IfSome result (λ x. x < length nodes.now) }
{
    nodes.iter().position(|node| node.has_epid(epid))
}
