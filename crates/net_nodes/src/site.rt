use chdr_words::NodeInfo;

/// Where a packet goes whose hop was performed.
#[derive(Clone, Copy, Debug, PartialEq, Eq)]
pub enum Done {
    /// On by this port, which has a link and isn't the port of arrival.
    Forward(u8),
    /// Back to its source.
    Return,
    /// Back to its source too: this port has no link, or is the port of arrival.
    NoSuchPort(u16),
    /// Nowhere: the hop names no exit.
    Dead,
}

/// A node as the operations of a hop see it.
///
/// An end node has no port to go on by, and so none here.
#[derive(Clone, Copy, Debug, PartialEq, Eq)]
pub struct Site {
    pub info: NodeInfo,
    pub ports: u8,
    /// Bit p says that port p has a link.
    pub linked: u32,
    /// The port by which the packet came.
    pub arrival: u8,
}
