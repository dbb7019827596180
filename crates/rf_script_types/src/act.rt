use chdr_words::{Control, Epid};
use rf_base::{Copyable, Items, Memory};

/// When an act of a duplex is due: once this number of packets of a stream was taken.
#[derive(Clone, Copy, Debug, PartialEq, Eq)]
pub struct Due {
    pub stream: u16,
    /// Below 2^16 in a script.
    pub taken: u64,
}

/// What a duplex does between the rounds of its run.
#[derive(Debug, Drop, PartialEq, Eq)]
pub enum Act {
    /// A host sends the request to `to`, and waits for the acknowledgement.
    Control { at: Due, to: Epid, request: Control },
    /// The bank is taken out and dropped.
    Unload { at: Due, port: u16 },
    /// The bank of one port goes to another.
    Move { at: Due, from: u16, to: u16 },
}

pub type Acts = Items<Act>;

impl Copyable for Act {
    fn copy(&self) -> Result<Act, Memory> {
        match self {
            Act::Control { at, to, request } => Ok(Act::Control {
                at: *at,
                to: *to,
                request: request.copy(),
            }),
            Act::Unload { at, port } => Ok(Act::Unload {
                at: *at,
                port: *port,
            }),
            Act::Move { at, from, to } => Ok(Act::Move {
                at: *at,
                from: *from,
                to: *to,
            }),
        }
    }
}
