use chdr_words::CmdOp;
use rf_base::{Copyable, Items, Memory};

/// What happens in a network, one step at a time.
///
/// Rule: docs/machine.md, "Events".
#[derive(Clone, Copy, Debug, PartialEq, Eq)]
pub enum Event {
    /// The first ready packet of this stream enters its first queue.
    Enter(u16),
    /// The front packet of this queue moves one node on.
    Hop(u16),
    /// The consumer of this stream has taken this many packets in all.
    Seen(u16, u64),
    /// The first packet of this block's input that isn't taken is fed to the block.
    Feed(u16, u16),
    /// The receiver of this stream sends the status that is due.
    Report(u16),
    /// The sender of this stream sends a command.
    Command(u16, CmdOp),
    /// The front packet of this queue is lost.
    Lose(u16),
    /// The first pending answer of this node enters its first queue.
    Reply(u16),
    /// The first request of this host enters its first queue.
    Ask(u16),
}

/// The events of a run, in order.
pub type Journal = Items<Event>;

impl Copyable for Event {
    fn copy(&self) -> Result<Event, Memory> {
        Ok(*self)
    }
}
