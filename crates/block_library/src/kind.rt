ghost use Rattle.std.specs.Prelude.{IsTrue, ◌≡◌, ◌↔◌};
ghost use Rattle.block_library.specs.Blocks.{FitsKind, inputs, outputs};

use rf_base::{Copyable, Memory};

/// What a block does; docs/blocks.md has the table.
///
/// The number n of a kind is 1 to 1,024 for keep, 1 to 16 for repeat and replay, 0 or 1 for switch.
#[derive(Clone, Copy, Debug, PartialEq, Eq)]
pub enum BlockKind {
    Tx,
    Rx,
    Fifo,
    Split,
    Keep(u16),
    Repeat(u16),
    Replay(u16),
    Switch(u16),
    Sink,
}

impl BlockKind {
    /// Whether the number of the kind is in its range.
    pub fn fits(self) -> bool
        ensures { IsTrue result ↔ FitsKind self }
    {
        match self {
            BlockKind::Keep(n) => 1 <= n && n <= 1024,
            BlockKind::Repeat(n) | BlockKind::Replay(n) => 1 <= n && n <= 16,
            BlockKind::Switch(n) => n <= 1,
            BlockKind::Tx | BlockKind::Rx | BlockKind::Fifo | BlockKind::Split | BlockKind::Sink =>
                true,
        }
    }

    /// How many inputs a block of the kind has.
    pub fn inputs(self) -> u16
        ensures { result ≡ inputs self }
    {
        match self {
            BlockKind::Tx => 0,
            BlockKind::Rx | BlockKind::Fifo | BlockKind::Split | BlockKind::Sink => 1,
            BlockKind::Keep(_) | BlockKind::Repeat(_) | BlockKind::Replay(_) => 1,
            BlockKind::Switch(_) => 2,
        }
    }

    /// How many outputs a block of the kind has.
    pub fn outputs(self) -> u16
        ensures { result ≡ outputs self }
    {
        match self {
            BlockKind::Rx | BlockKind::Sink => 0,
            BlockKind::Tx | BlockKind::Fifo | BlockKind::Switch(_) => 1,
            BlockKind::Keep(_) | BlockKind::Repeat(_) | BlockKind::Replay(_) => 1,
            BlockKind::Split => 2,
        }
    }
}

impl Copyable for BlockKind {
    fn copy(&self) -> Result<BlockKind, Memory> {
        Ok(*self)
    }
}
