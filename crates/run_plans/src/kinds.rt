ghost use Rattle.std.specs.Prelude.{◌≡◌, ◌↔◌, ◌<◌, ◌||◌, IsTrue};
ghost use Rattle.net_machine.specs.CanBegin.{factor_of, passed_input};
ghost use Rattle.net_machine.specs.Plans.{is_among, is_rx, is_tx};
ghost use Rattle.run_plans.specs.Firsts.{EachPlace};

use block_library::BlockKind;
use chdr_words::Epid;

/// Whether blocks of the kind make packets by themselves.
pub(crate) fn is_tx(kind: BlockKind) -> bool
    ensures { result ≡ is_tx kind }
{
    match kind {
        BlockKind::Tx => true,
        BlockKind::Rx | BlockKind::Fifo | BlockKind::Split | BlockKind::Sink => false,
        BlockKind::Keep(_) | BlockKind::Repeat(_) | BlockKind::Replay(_) => false,
        BlockKind::Switch(_) => false,
    }
}

/// Whether the packets that come to blocks of the kind are taken outside the network.
fn is_rx(kind: BlockKind) -> bool
    ensures { result ≡ is_rx kind }
{
    match kind {
        BlockKind::Rx => true,
        BlockKind::Tx | BlockKind::Fifo | BlockKind::Split | BlockKind::Sink => false,
        BlockKind::Keep(_) | BlockKind::Repeat(_) | BlockKind::Replay(_) => false,
        BlockKind::Switch(_) => false,
    }
}

/// Whether blocks of the kind stand at hosts; those of every other kind stand at endpoints.
pub(crate) fn is_on_host(kind: BlockKind) -> bool
    ensures { result ≡ (is_tx kind || is_rx kind) }
{
    is_tx(kind) || is_rx(kind)
}

/// How often a kind gives what it takes.
pub(crate) fn factor_of(kind: BlockKind) -> u16
    ensures { result ≡ factor_of kind }
{
    match kind {
        BlockKind::Repeat(n) | BlockKind::Replay(n) => n,
        BlockKind::Tx | BlockKind::Rx | BlockKind::Fifo | BlockKind::Split | BlockKind::Sink => 1,
        BlockKind::Keep(_) | BlockKind::Switch(_) => 1,
    }
}

/// The input whose packets a kind gives.
pub(crate) fn passed_input(kind: BlockKind) -> u16
    ensures { result ≡ passed_input kind }
{
    match kind {
        BlockKind::Switch(n) => n,
        BlockKind::Tx | BlockKind::Rx | BlockKind::Fifo | BlockKind::Split | BlockKind::Sink => 0,
        BlockKind::Keep(_) | BlockKind::Repeat(_) | BlockKind::Replay(_) => 0,
    }
}

/// Whether the EPID is one of these.
pub(crate) fn is_among(epid: Epid, epids: &[Epid]) -> bool
    ensures { result ≡ is_among epid epids.now }
{
    epids.iter().any(|one| one.0 == epid.0)
}

/// Whether each of these EPIDs can be a node's.
pub(crate) fn are_names(epids: &[Epid]) -> bool
    ensures { IsTrue result ↔ EachPlace (λ _ epid. 0 < epid.0) epids.now }
{
    epids.iter().all(|epid| epid.0 > 0)
}
