ghost use Rattle.std.specs.Prelude.{◌≡◌, ◌↔◌, IsTrue};

use chdr_words::Epid;
use rf_base::{Copyable, Items, Memory};

/// A node of a network, with what is settled of it before packets cross it.
#[derive(Clone, Copy, Debug, PartialEq, Eq)]
pub enum NodePlan {
    /// It passes packets on by its table, and has 1 to 32 ports.
    Crossbar { ports: u8 },
    /// It passes packets on by its table, between two ports.
    Adapter,
    /// An end of streams and of control, with one port.
    Host { epid: Epid },
    /// An end of streams with one port, and the number of its register bank, below 16.
    Endpoint { epid: Epid, bank: Option<u16> },
}

impl NodePlan {
    ghost use Rattle.net_topology.specs.Leads.{has_table};
    ghost use Rattle.net_topology.specs.Tree.{FitsNode, ports_of, epid_of, has_epid};

    /// Whether an EPID isn't 0, a crossbar has 1 to 32 ports, and a bank is below 16.
    pub fn fits(&self) -> bool
        ensures { IsTrue result ↔ FitsNode self.now }
    {
        match self {
            NodePlan::Crossbar { ports } => 1 <= *ports && *ports <= 32,
            NodePlan::Adapter => true,
            NodePlan::Host { epid } => epid.0 > 0,
            NodePlan::Endpoint { epid, bank: None } => epid.0 > 0,
            NodePlan::Endpoint {
                epid,
                bank: Some(bank),
            } => epid.0 > 0 && *bank < 16,
        }
    }

    /// How many ports the node has.
    pub fn ports(&self) -> u8
        ensures { result ≡ ports_of self.now }
    {
        match self {
            NodePlan::Crossbar { ports } => *ports,
            NodePlan::Adapter => 2,
            NodePlan::Host { .. } | NodePlan::Endpoint { .. } => 1,
        }
    }

    /// Whether it passes packets on by a table.
    pub fn has_table(&self) -> bool
        ensures { result ≡ has_table self.now }
    {
        match self {
            NodePlan::Crossbar { .. } | NodePlan::Adapter => true,
            NodePlan::Host { .. } | NodePlan::Endpoint { .. } => false,
        }
    }

    /// The EPID of an end node.
    pub fn epid(&self) -> Option<Epid>
        ensures { result ≡ epid_of self.now }
    {
        match self {
            NodePlan::Crossbar { .. } | NodePlan::Adapter => None,
            NodePlan::Host { epid } | NodePlan::Endpoint { epid, .. } => Some(*epid),
        }
    }

    /// Whether it is an end node with this EPID.
    pub fn has_epid(&self, epid: Epid) -> bool
        ensures { result ≡ has_epid epid self.now }
    {
        match self {
            NodePlan::Crossbar { .. } | NodePlan::Adapter => false,
            NodePlan::Host { epid: own } | NodePlan::Endpoint { epid: own, .. } => own.0 == epid.0,
        }
    }
}

impl Copyable for NodePlan {
    fn copy(&self) -> Result<NodePlan, Memory> {
        Ok(*self)
    }
}

/// A link between a port of node `a` and a port of node `b`.
///
/// Link k gives the directed links 2k, from `a` to `b`, and 2k + 1, from `b` to `a`.
#[derive(Clone, Copy, Debug, PartialEq, Eq)]
pub struct LinkPlan {
    pub a: u16,
    pub a_port: u8,
    pub b: u16,
    pub b_port: u8,
}

impl LinkPlan {
    ghost use Rattle.net_topology.specs.Tree.{uses_port, shares_port};

    /// Whether one end of the link is at this port of this node.
    pub fn uses_port(&self, node: u16, port: u8) -> bool
        ensures { result ≡ uses_port self.now node port }
    {
        self.a == node && self.a_port == port || self.b == node && self.b_port == port
    }

    /// Whether an end of the other link is at a port of this link.
    pub fn shares_port(&self, other: LinkPlan) -> bool
        ensures { result ≡ shares_port self.now other }
    {
        self.uses_port(other.a, other.a_port) || self.uses_port(other.b, other.b_port)
    }
}

impl Copyable for LinkPlan {
    fn copy(&self) -> Result<LinkPlan, Memory> {
        Ok(*self)
    }
}

pub type NodeList = Items<NodePlan>;

pub type LinkList = Items<LinkPlan>;

/// Numbers of directed links.
pub type LinkNumbers = Items<u16>;

/// A network as it is asked for: any nodes, any links.
#[derive(Debug, Drop, PartialEq, Eq)]
pub struct Plan {
    pub nodes: NodeList,
    pub links: LinkList,
    /// How many packets each directed link can hold.
    pub room: u32,
    /// The most nodes that the network may have, at most 256.
    pub limit: u32,
}

impl Plan {
    ghost use Rattle.net_topology.specs.Tree.{FitsPlan};

    /// Whether each node fits and the limit is at most 256: what a check asks for.
    pub fn fits(&self) -> bool
        ensures { IsTrue result ↔ FitsPlan self.now }
    {
        self.limit <= 256 && self.nodes.as_slice().iter().all(|node| node.fits())
    }
}

impl Copyable for Plan {
    fn copy(&self) -> Result<Plan, Memory> {
        Ok(Plan {
            nodes: self.nodes.copy()?,
            links: self.links.copy()?,
            room: self.room,
            limit: self.limit,
        })
    }
}
