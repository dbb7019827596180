use chdr_words::{Bytes, Command, Control, Epid, Management, Status, WordList};
use rf_base::{Copyable, Items, Memory};

/// What a packet carries behind its header and metadata.
#[derive(Debug, Drop, PartialEq, Eq)]
pub enum Body {
    /// Samples, with the time of the first one in ticks where the packet tells it.
    Samples { time: Option<u64>, payload: Bytes },
    Status(Status),
    Command(Command),
    Control(Control),
    Management(Management),
}

/// A CHDR packet as a value; docs/wire-format.md draws its bytes.
#[derive(Debug, Drop, PartialEq, Eq)]
pub struct Packet {
    /// The virtual channel, below 64.
    pub vc: u8,
    /// The end of a burst.
    pub eob: bool,
    /// The end of a vector.
    pub eov: bool,
    /// The number of a packet in its stream, modulo 2^16.
    pub seq: u16,
    pub dst: Epid,
    /// At most 31 words that pass unread.
    pub mdata: WordList,
    pub body: Body,
}

/// The packet at the front of bytes.
#[derive(Debug, Drop, PartialEq, Eq)]
pub struct Front {
    pub packet: Packet,
    /// The bytes that it takes: its Length rounded up to words.
    pub size: usize,
    /// Whether these are its canonical spelling.
    pub canonical: bool,
}

pub type PacketList = Items<Packet>;

impl Copyable for Body {
    fn copy(&self) -> Result<Body, Memory> {
        Ok(match self {
            Body::Samples { time, payload } => Body::Samples {
                time: *time,
                payload: payload.copy()?,
            },
            Body::Status(status) => Body::Status(*status),
            Body::Command(command) => Body::Command(*command),
            Body::Control(control) => Body::Control(control.copy()),
            Body::Management(management) => Body::Management(management.copy()?),
        })
    }
}

impl Copyable for Packet {
    fn copy(&self) -> Result<Packet, Memory> {
        Ok(Packet {
            vc: self.vc,
            eob: self.eob,
            eov: self.eov,
            seq: self.seq,
            dst: self.dst,
            mdata: self.mdata.copy()?,
            body: self.body.copy()?,
        })
    }
}
