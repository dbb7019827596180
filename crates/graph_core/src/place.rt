use std::fmt;

/// The side of a block that a port is on.
#[derive(Clone, Copy, Debug, PartialEq, Eq, Hash)]
pub enum Side {
    Into,
    Out,
}

/// What each port has a value of: samples a second, bytes a sample, samples a packet.
#[derive(Clone, Copy, Debug, PartialEq, Eq, Hash)]
pub enum Prop {
    Rate,
    Item,
    Spp,
}

/// A port of a block; which side it is on is said where it is used.
#[derive(Clone, Copy, Debug, PartialEq, Eq)]
pub struct PortAt {
    pub block: u16,
    pub port: u16,
}

/// A property of one port.
#[derive(Clone, Copy, Debug, PartialEq, Eq, Hash)]
pub struct PropAt {
    pub block: u16,
    pub side: Side,
    pub port: u16,
    pub prop: Prop,
}

/// An edge from an output to an input.
#[derive(Clone, Copy, Debug, PartialEq, Eq)]
pub struct Edge {
    pub from: PortAt,
    pub to: PortAt,
}

/// What gives one value from another: the edge or the block of that number.
#[derive(Clone, Copy, Debug, PartialEq, Eq)]
pub enum Rule {
    Edge(u16),
    Block(u16),
}

impl fmt::Display for Side {
    fn fmt<W: fmt::Write>(&self, f: &mut fmt::Formatter<W>) -> fmt::Result {
        match self {
            Side::Into => write!(f, "in"),
            Side::Out => write!(f, "out"),
        }
    }
}

impl fmt::Display for Prop {
    fn fmt<W: fmt::Write>(&self, f: &mut fmt::Formatter<W>) -> fmt::Result {
        match self {
            Prop::Rate => write!(f, "rate"),
            Prop::Item => write!(f, "item"),
            Prop::Spp => write!(f, "spp"),
        }
    }
}

/// `block B SIDE P PROP`, as in `block 0 out 0 spp`.
impl fmt::Display for PropAt {
    fn fmt<W: fmt::Write>(&self, f: &mut fmt::Formatter<W>) -> fmt::Result {
        write!(
            f,
            "block {} {} {} {}",
            self.block, self.side, self.port, self.prop
        )
    }
}

/// `edge K` or `block B`.
impl fmt::Display for Rule {
    fn fmt<W: fmt::Write>(&self, f: &mut fmt::Formatter<W>) -> fmt::Result {
        match self {
            Rule::Edge(number) => write!(f, "edge {number}"),
            Rule::Block(number) => write!(f, "block {number}"),
        }
    }
}
