use chdr_words::{Epid, NodeKind};
use rf_base::{Copyable, Items, Memory};

/// A node that a walk found.
#[derive(Clone, Copy, Debug, PartialEq, Eq)]
pub struct FoundNode {
    /// The node's number.
    pub instance: u16,
    pub kind: NodeKind,
    pub ports: u8,
    /// The EPID of a host or an endpoint, and 0 for a crossbar or an adapter.
    pub epid: Epid,
    /// The instance of the node from which it was found; the first node has its own.
    pub parent: u16,
    /// The port of that node which leads to it, and 0 for the first node.
    pub parent_port: u8,
    /// Its own port which leads back, and 0 for the first node.
    pub port: u8,
}

/// Nodes, in the order of finding.
pub type FoundNodes = Items<FoundNode>;

/// A port whose probe or answer was lost: the instance of the node, and its port.
#[derive(Clone, Copy, Debug, PartialEq, Eq)]
pub struct LostPort {
    pub node: u16,
    pub port: u8,
}

pub type LostPorts = Items<LostPort>;

/// What a walk found.
#[derive(Debug, Drop, PartialEq, Eq)]
pub struct Found {
    pub nodes: FoundNodes,
    /// How many ports lead nowhere.
    pub bare: u32,
    pub lost: LostPorts,
}

impl Copyable for FoundNode {
    fn copy(&self) -> Result<FoundNode, Memory> {
        Ok(*self)
    }
}

impl Copyable for LostPort {
    fn copy(&self) -> Result<LostPort, Memory> {
        Ok(*self)
    }
}

impl Copyable for Found {
    fn copy(&self) -> Result<Found, Memory> {
        Ok(Found {
            nodes: self.nodes.copy()?,
            bare: self.bare,
            lost: self.lost.copy()?,
        })
    }
}
