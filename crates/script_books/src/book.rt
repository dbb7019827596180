//! What each command did.
use crate::{Found, Refusal};
use chdr_words::Control;
use net_machine::Event;
use rf_base::Items;
use run_books::RunBook;

/// A run over two devices.
#[derive(Debug, Drop, PartialEq, Eq)]
pub struct TwinBook {
    pub run: RunBook,
    /// How many nodes the device at the cut link's first end has.
    pub first_nodes: u32,
    /// How many nodes the other device has.
    pub second_nodes: u32,
}

/// What came of an act of a duplex.
#[derive(Debug, Drop, PartialEq, Eq)]
pub enum ActAnswer {
    /// The acknowledgement of a control request.
    Answered(Control),
    /// The request or its answer was lost.
    Lost,
    /// The bank was unloaded or moved.
    Done,
    /// There was no bank.
    Empty,
}

/// One answer for each act, in order.
pub type ActAnswers = Items<ActAnswer>;

/// What happens in a duplex: an event of its network, or the act of that number.
#[derive(Clone, Copy, Debug, PartialEq, Eq)]
pub enum DuplexItem {
    Event(Event),
    Act(u16),
}

pub type DuplexItems = Items<DuplexItem>;

/// A run beside which a host acted.
#[derive(Debug, Drop, PartialEq, Eq)]
pub struct DuplexBook {
    /// Its journal has the events of the items.
    pub run: RunBook,
    pub items: DuplexItems,
    pub answers: ActAnswers,
}

/// What a command did.
#[derive(Debug, Drop, PartialEq, Eq)]
pub enum Book {
    Net,
    Discover(Found),
    /// How many crossbars and adapters are on the way.
    Route(u32),
    /// The acknowledgement.
    Control(Control),
    Unload,
    /// The block's number.
    Block(u16),
    /// The stream's number.
    Connect(u16),
    Set,
    Commit,
    Run(RunBook),
    Twin(TwinBook),
    Duplex(DuplexBook),
    Refused(Refusal),
}

pub type BookList = Items<Book>;

/// One book for each command that was performed, in order.
#[derive(Debug, Drop, PartialEq, Eq)]
pub struct Books {
    pub list: BookList,
}
