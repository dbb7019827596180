ghost use Rattle.std.specs.Prelude.{◌≡◌};
ghost use Rattle.net_machine.specs.Plans.{is_rx, is_tx};

use block_library::BlockKind;

/// Whether blocks of the kind make packets by themselves.
pub fn is_tx(kind: BlockKind) -> bool
    ensures { result ≡ is_tx kind }
{
    match kind {
        BlockKind::Tx => true,
        BlockKind::Rx | BlockKind::Fifo | BlockKind::Split | BlockKind::Sink => false,
        BlockKind::Keep(_) | BlockKind::Repeat(_) | BlockKind::Replay(_) => false,
        BlockKind::Switch(_) => false,
    }
}

/// Whether the packets that come to blocks of the kind are taken outside the network.
pub fn is_rx(kind: BlockKind) -> bool
    ensures { result ≡ is_rx kind }
{
    match kind {
        BlockKind::Rx => true,
        BlockKind::Tx | BlockKind::Fifo | BlockKind::Split | BlockKind::Sink => false,
        BlockKind::Keep(_) | BlockKind::Repeat(_) | BlockKind::Replay(_) => false,
        BlockKind::Switch(_) => false,
    }
}
