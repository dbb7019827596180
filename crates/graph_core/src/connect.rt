ghost use Rattle.std.specs.Prelude.{◌≤◌, All, length};
ghost use Rattle.graph_core.specs.Edges.{IsJoined};
ghost use Rattle.graph_core.specs.Refusals.{IsRefusal};

use crate::ports::is_port;
use crate::reach::{is_taken, reaches};
use crate::{ConnectFault, Edge, PortAt, Side};
use block_library::BlockKind;

/// Why an edge is refused, where it is.
pub(crate) fn refusal(
    kinds: &[BlockKind],
    edges: &[Edge],
    from: PortAt,
    to: PortAt,
) -> Option<ConnectFault>
    requires few { length kinds.now ≤ 32 }
    requires joined { All (IsJoined kinds.now) edges.now }
    ensures { IsRefusal kinds.now edges.now from to result }
{
    if !is_port(kinds, Side::Out, from) || !is_port(kinds, Side::Into, to) {
        return Some(ConnectFault::BadPort);
    }
    if is_taken(edges, from, to) {
        return Some(ConnectFault::PortTaken);
    }
    if reaches(edges, to.block, from.block) {
        return Some(ConnectFault::Cycle);
    }
    None
}
