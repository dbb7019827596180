ghost use Rattle.std.specs.Prelude.{◌≡◌, ◌≤◌, ℕ};
ghost use Rattle.block_library.specs.Blocks.{FitsKind};
ghost use Rattle.graph_core.specs.Derivation.{across, carried, product, quotient, rate_across};

use block_library::BlockKind;
use graph_core::{Edge, Prop, PropAt, Side};

/// The property at the edge's other end, where the property is at one of its ends.
pub(crate) fn across(edge: &Edge, at: PropAt) -> Option<PropAt>
    ensures { result ≡ across edge.now at }
{
    let (near, far, side) = match at.side {
        Side::Out => (edge.from, edge.to, Side::Into),
        Side::Into => (edge.to, edge.from, Side::Out),
    };
    if at.block == near.block && at.port == near.port {
        Some(PropAt {
            block: far.block,
            side,
            port: far.port,
            prop: at.prop,
        })
    } else {
        None
    }
}

/// The value divided by n, where it can be.
fn quotient(n: u16, value: u64) -> Option<u64>
    requires { 1 ≤ n }
    ensures { result ≡ quotient n value }
{
    if value % (n as u64) == 0 {
        Some(value / (n as u64))
    } else {
        None
    }
}

/// The value times n, up to 2^64 - 1.
fn product(n: u16, value: u64) -> Option<u64>
    ensures { result ≡ product n value }
{
    value.checked_mul(n as u64)
}

/// The rate on the other side of a block, for the rate on the side.
fn rate_across(kind: BlockKind, side: Side, value: u64) -> Option<u64>
    requires { FitsKind kind }
    ensures { result ≡ rate_across kind side value }
{
    match (kind, side) {
        (BlockKind::Keep(n), Side::Into) | (BlockKind::Repeat(n), Side::Out) => quotient(n, value),
        (BlockKind::Keep(n), Side::Out) | (BlockKind::Repeat(n), Side::Into) => product(n, value),
        (BlockKind::Tx | BlockKind::Rx | BlockKind::Fifo | BlockKind::Split, _) => Some(value),
        (BlockKind::Replay(_) | BlockKind::Switch(_) | BlockKind::Sink, _) => Some(value),
    }
}

/// The value at a port on the side `to` of a block, for the value of the property at one on `from`.
pub(crate) fn carried(kind: BlockKind, prop: Prop, from: Side, to: Side, value: u64) -> Option<u64>
    requires { FitsKind kind }
    ensures { result ≡ carried kind prop from to value }
{
    match (prop, from, to) {
        (Prop::Rate, Side::Into, Side::Out) | (Prop::Rate, Side::Out, Side::Into) => {
            rate_across(kind, from, value)
        }
        (Prop::Rate, Side::Into, Side::Into) | (Prop::Rate, Side::Out, Side::Out) => Some(value),
        (Prop::Item | Prop::Spp, _, _) => Some(value),
    }
}
