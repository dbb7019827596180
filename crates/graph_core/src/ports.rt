ghost use Rattle.std.specs.Prelude.{◌≡◌, ◌<◌, ◌↔◌, IsTrue};
ghost use Rattle.graph_core.specs.Ports.{port_count, ports_at, IsPort};

use crate::{PortAt, Side};
use block_library::BlockKind;

/// How many ports a block of the kind has on the side; docs/graph.md has the table.
pub fn port_count(kind: BlockKind, side: Side) -> u16
    ensures { result ≡ port_count side kind }
{
    match side {
        Side::Into => kind.inputs(),
        Side::Out => kind.outputs(),
    }
}

/// How many ports the block has on the side: none where there is no such block.
pub fn ports_at(kinds: &[BlockKind], block: u16, side: Side) -> u16
    ensures { result ≡ ports_at kinds.now block side }
{
    match kinds.get(block as usize) {
        Some(kind) => port_count(*kind, side),
        None => 0,
    }
}

/// Whether the block has the port on the side.
pub(crate) fn is_port(kinds: &[BlockKind], side: Side, at: PortAt) -> bool
    ensures { IsTrue result ↔ IsPort kinds.now side at }
{
    at.port < ports_at(kinds, at.block, side)
}
