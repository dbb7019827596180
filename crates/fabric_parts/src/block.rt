ghost use Rattle.std.specs.Prelude.{◌≡◌, ◌<◌, ◌⊎◌, [], Some, None, IfOk, IsTrue, OnOk, OnErr};
ghost use Rattle.block_library.specs.Blocks.{FitsKind, IsFeed, inputs};
ghost use Rattle.block_library.specs.Lines.{empty_line};
ghost use Rattle.block_library.specs.Memory.{block_registers, gives, kept_of, lists, made};
ghost use Rattle.net_present.specs.Onward.{block_fed, line_after};

use block_library::{Block, BlockKind, Fed, Line};
use chdr_packets::Packet;
use rf_base::Memory;
use std::alloc::Global;
use std::marker::Model;

/// A block of a run, with its line where it is a sink.
#[derive(Drop)]
pub struct BlockPart {
    kind: BlockKind,
    item: u32,
    block: Block,
    line: Line,
}

impl Model for BlockPart {
    ghost use Rattle.fabric_parts.specs.Blocks.{BlockSeen};

    ghost Value = { BlockSeen };

    ghost use Rattle.fabric_parts.specs.BlockView.{IsSound, view_of};

    ghost view = { view_of };

    ghost invariant = { IsSound };
}

impl BlockPart {
    /// Block `number`, to which nothing was fed, for samples of `item` bytes.
    #[tactic(auto, unfolding(block_library::specs::Memory::kept_of))]
    pub fn new(alloc: Global, number: u16, kind: BlockKind, item: u32) -> Result<BlockPart, Memory>
        requires kind { FitsKind kind }
        requires item { (item ≡ 4) ⊎ (item ≡ 8) }
        ensures kept { IfOk result (λ b. b.now.kept ≡ kept_of kind item (lists [] [])) }
        ensures line { IfOk result (λ b. b.now.line ≡ empty_line number) }
    {
        let block = Block::new(alloc, kind, item)?;
        Ok(BlockPart {
            kind,
            item,
            block,
            line: Line::new(number),
        })
    }

    /// Whether the block takes a packet on an input: what `prepare` asks for.
    pub fn takes(&self, port: u16, packet: &Packet) -> bool
        ensures port { IsTrue result → port < inputs self.now.now.kept.kind }
        ensures feed { IsTrue result → IsFeed self.now.now.kept.item packet.now }
        ensures every { port < inputs self.now.now.kept.kind → IsFeed self.now.now.kept.item packet.now →
            IsTrue result }
    {
        self.block.takes(port, packet)
    }

    /// Makes what the block will give for a packet but the packet itself, and the room for that.
    ///
    /// At `Err` nothing is prepared.
    pub fn prepare(&mut self, port: u16, packet: &Packet) -> Result<(), Memory>
        requires port { port < inputs self.old.now.kept.kind }
        requires feed { IsFeed self.old.now.kept.item packet.now }
        ensures now { self.new.now ≡ self.old.now }
        ensures ok { OnOk result (self.new.prepared ≡ Some (made self.old.now.kept packet.now)) }
        ensures err { OnErr result (self.new.prepared ≡ None) }
    {
        self.block.prepare(port, packet)
    }

    /// Feeds the packet that is prepared; it takes no memory.
    #[tactic(auto, unfolding(block_library::specs::Memory::after_feed))]
    pub fn feed(&mut self, port: u16, packet: Packet) -> Fed
        requires port { port < inputs self.old.now.kept.kind }
        requires prepared { self.old.prepared ≡ Some (made self.old.now.kept packet) }
        ensures first { result.first ≡ (gives self.old.now.kept port packet).first }
        ensures second { result.second ≡ (gives self.old.now.kept port packet).second }
        ensures next { self.new ≡ record { now = block_fed port packet self.old.now; prepared = None } }
    {
        self.line = line_after(self.kind, self.item, self.line, &packet);
        self.block.feed(port, packet)
    }

    /// The registers of the block.
    pub fn registers(&self) -> [u32; 4]
        ensures { result ≡ block_registers self.now.now.kept }
    {
        self.block.registers()
    }

    /// What a sink took; the line of another block is empty.
    pub fn line(&self) -> Line
        ensures { result ≡ self.now.now.line }
    {
        self.line
    }
}

/// The line of a block with one packet more, kept for a sink alone.
fn line_after(kind: BlockKind, item: u32, line: Line, packet: &Packet) -> Line
    requires { (item ≡ 4) ⊎ (item ≡ 8) }
    ensures { result ≡ line_after kind item line packet.now }
{
    let mut line = line;
    match kind {
        BlockKind::Sink => line.take(item, packet),
        BlockKind::Tx
        | BlockKind::Rx
        | BlockKind::Fifo
        | BlockKind::Split
        | BlockKind::Keep(_)
        | BlockKind::Repeat(_)
        | BlockKind::Replay(_)
        | BlockKind::Switch(_) => {}
    }
    line
}
