//! What each block does, by its number.
ghost use Rattle.std.specs.Prelude.{◌≡◌, ◌<◌, length, slice_set, OnOk, OnErr, None, Some};
ghost use Rattle.block_library.specs.Blocks.{IsFeed, inputs};
ghost use Rattle.block_library.specs.Memory.{block_registers, gives, made};
ghost use Rattle.net_present.specs.Kept.{block_now_at};
ghost use Rattle.net_present.specs.Onward.{block_fed};
ghost use Rattle.fabric_lists.specs.BlocksView.{blocks_of, made_of, made_seen};

use block_library::{Fed, Line};
use chdr_packets::Packet;
use fabric_parts::BlockPart;
use rf_base::Memory;

/// Makes what a block will give for a packet. At `Err` nothing is prepared.
pub fn prepare(
    blocks: &mut Vec<BlockPart>,
    b: usize,
    port: u16,
    packet: &Packet,
) -> Result<(), Memory>
    requires there { b < length blocks.old.items }
    requires port { port < inputs (block_now_at (blocks_of blocks.old.items) b).kept.kind }
    requires feed { IsFeed (block_now_at (blocks_of blocks.old.items) b).kept.item packet.now }
    ensures now { blocks_of blocks.new.items ≡ blocks_of blocks.old.items }
    ensures ok { OnOk result (made_seen (made_of blocks.new.items) b
        ≡ Some (made (block_now_at (blocks_of blocks.old.items) b).kept packet.now)) }
{
    let block = &mut blocks[b];
    block.prepare(port, packet)
}

/// Feeds a block the packet for which it was prepared.
pub fn feed(blocks: &mut Vec<BlockPart>, b: usize, port: u16, packet: Packet) -> Fed
    requires there { b < length blocks.old.items }
    requires port { port < inputs (block_now_at (blocks_of blocks.old.items) b).kept.kind }
    requires prepared { made_seen (made_of blocks.old.items) b
        ≡ Some (made (block_now_at (blocks_of blocks.old.items) b).kept packet) }
    ensures first { result.first ≡ (gives (block_now_at (blocks_of blocks.old.items) b).kept port packet).first }
    ensures second { result.second ≡ (gives (block_now_at (blocks_of blocks.old.items) b).kept port packet).second }
    ensures now { blocks_of blocks.new.items ≡ slice_set (blocks_of blocks.old.items) b
        (block_fed port packet (block_now_at (blocks_of blocks.old.items) b)) }
{
    let block = &mut blocks[b];
    block.feed(port, packet)
}

/// The registers of a block.
pub fn registers(blocks: &[BlockPart], b: usize) -> [u32; 4]
    requires { b < length blocks.now }
    ensures { result ≡ block_registers (block_now_at (blocks_of blocks.now) b).kept }
{
    blocks[b].registers()
}

/// The line of a block.
pub fn line(blocks: &[BlockPart], b: usize) -> Line
    requires { b < length blocks.now }
    ensures { result ≡ (block_now_at (blocks_of blocks.now) b).line }
{
    blocks[b].line()
}
