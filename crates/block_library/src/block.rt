ghost use Rattle.std.specs.Prelude.{IsTrue, ◌≡◌, ◌==◌, ◌≤◌, ◌++◌, ◌%◌, ◌/◌, ◌<◌, ◌⊎◌, ◌∷◌, ℕ, List, [], Option, Some, None, IfOk, OnOk, OnErr, slice_get, ◌+◌, vec_len, vec_capacity, if◌then◌else◌};
ghost use Rattle.block_library.specs.Blocks.{FitsKind, IsFeed, Lists, inputs, closes};
ghost use Rattle.block_library.specs.Memory.{StandsFor, GoesOn, lists, counted, kept_of, gives, made, moved, prepared_as, after_feed, next_phase, next_group, block_registers};

use crate::BlockKind;
use crate::make::{
    self, Made, copied, holds_samples, is_left_out, passes_whole, repeated, replayed, sample_count,
};
use chdr_packets::{Packet, PacketList};
use rf_base::{Items, Memory};
use std::alloc::Global;
use std::marker::Model;

/// The packets that a block gives on its outputs for one packet that was fed.
#[derive(Debug, Drop)]
pub struct Fed {
    pub first: PacketList,
    pub second: PacketList,
}

/// A block, with what it keeps from packet to packet and what is made for the next one.
#[derive(Drop)]
pub struct Block {
    kind: BlockKind,
    item: u32,
    /// The number of the next sample, modulo keep's n.
    phase: u32,
    /// The group that replay hasn't seen whole.
    group: Vec<Packet>,
    fed: u32,
    given: u32,
    prepared: Option<Made>,
}

impl Model for Block {
    ghost use Rattle.std.specs.Prelude.{◌≡◌, ◌<◌, ◌≤◌, ◌⊎◌, option_map, vec_len, vec_capacity};
    ghost use Rattle.block_library.specs.Blocks.{FitsKind};
    ghost use Rattle.block_library.specs.Memory.{BlockView, kept, lists, prepared_as};

    ghost Value = { BlockView };

    ghost view = { λ block. record {
      kept = kept block.kind block.item block.phase
          block.group.items block.fed block.given;
      prepared = option_map (λ made. prepared_as
          (lists made.first.items made.second.items) made.room) block.prepared;
    } };

    ghost invariant = { λ block. FitsKind block.kind × ((block.item ≡ 4) ⊎ (block.item ≡ 8)) ×
        (block.phase < 1024) × (vec_len block.group < 64) × (64 ≤ vec_capacity block.group) };
}

impl Block {
    /// A block to which nothing was fed, for samples of `item` bytes.
    #[tactic(auto, unfolding(crate::specs::Memory::kept_of, crate::specs::Blocks::block_of, crate::specs::Blocks::kept_packets, crate::specs::Blocks::groups, crate::specs::Blocks::open_group))]
    pub fn new(alloc: Global, kind: BlockKind, item: u32) -> Result<Block, Memory>
        requires kind { FitsKind kind }
        requires item { (item ≡ 4) ⊎ (item ≡ 8) }
        ensures { IfOk result (λ block. block ≡ record {
          kept = kept_of kind item (lists [] []);
          prepared = None;
        }) }
    {
        Ok(Block {
            kind,
            item,
            phase: 0,
            group: Vec::with_capacity(alloc, 64)?,
            fed: 0,
            given: 0,
            prepared: None,
        })
    }

    /// Whether the block takes a packet on an input: VC 0, no metadata, and whole samples.
    pub fn takes(&self, port: u16, packet: &Packet) -> bool
        ensures port { IsTrue result → port < inputs self.now.kept.kind }
        ensures feed { IsTrue result → IsFeed self.now.kept.item packet.now }
        ensures every { port < inputs self.now.kept.kind → IsFeed self.now.kept.item packet.now →
            IsTrue result }
    {
        port < self.kind.inputs()
            && packet.vc == 0
            && packet.mdata.is_empty()
            && holds_samples(self.item, &packet.body)
    }

    /// Makes what the block will give for a packet but those that are moved, and the room for these.
    ///
    /// What was fed stays as it is. At `Err` nothing is prepared.
    pub fn prepare(&mut self, port: u16, packet: &Packet) -> Result<(), Memory>
        requires port { port < inputs self.old.kept.kind }
        requires feed { IsFeed self.old.kept.item packet.now }
        ensures kept { self.new.kept ≡ self.old.kept }
        ensures ok { OnOk result (self.new.prepared ≡ Some (made self.old.kept packet.now)) }
        ensures err { OnErr result (self.new.prepared ≡ None) }
    {
        self.prepared = None;
        let made = self.make(packet)?;
        self.prepared = Some(made);
        Ok(())
    }

    #[tactic(auto, unfolding(crate::specs::Memory::made))]
    fn make(&self, packet: &Packet) -> Result<Made, Memory>
        ensures { IfOk result (λ it. prepared_as (lists it.first.items it.second.items) it.room ≡
            made self.now.kept packet.now) }
    {
        let alloc = *self.group.allocator();
        let none = Vec::new(alloc);
        match self.kind {
            BlockKind::Tx | BlockKind::Rx | BlockKind::Sink => Made::of(none, Vec::new(alloc), 0),
            BlockKind::Fifo | BlockKind::Switch(_) => Made::of(none, Vec::new(alloc), 1),
            BlockKind::Split => Made::of(none, copied(alloc, packet)?, 1),
            BlockKind::Keep(n) => {
                if passes_whole(n, self.item, packet) {
                    let room = if is_left_out(packet) { 0 } else { 1 };
                    Made::of(none, Vec::new(alloc), room)
                } else {
                    let made = make::kept(alloc, n, self.item, self.phase, packet)?;
                    Made::of(made, none, 0)
                }
            }
            BlockKind::Repeat(n) => {
                if passes_whole(n, self.item, packet) {
                    Made::of(none, Vec::new(alloc), 1)
                } else {
                    Made::of(repeated(alloc, n, self.item, packet)?, none, 0)
                }
            }
            BlockKind::Replay(n) => {
                if self.closes(packet) {
                    let copies = replayed(alloc, n - 1, self.group.as_slice(), packet)?;
                    Made::of(copies, none, self.group.len() + 1)
                } else {
                    Made::of(none, Vec::new(alloc), 0)
                }
            }
        }
    }

    /// Whether a packet ends the group.
    fn closes(&self, packet: &Packet) -> bool
        ensures { result ≡ closes self.now.kept.group packet.now }
    {
        packet.eob || self.group.len() + 1 == 64
    }

    /// Feeds the packet that is prepared; it takes no memory.
    ///
    /// A block stands for a history where it keeps what that history leaves. Packet by packet, what is given
    /// then joins up to what the block gives for its whole history.
    #[tactic(auto, unfolding(crate::specs::Memory::made, crate::specs::Memory::moved, crate::specs::Memory::gives, crate::specs::Memory::after_feed))]
    pub fn feed(&mut self, port: u16, packet: Packet) -> Fed
        requires port { port < inputs self.old.kept.kind }
        requires prepared { self.old.prepared ≡ Some (made self.old.kept packet) }
        ensures first { result.first ≡ (gives self.old.kept port packet).first }
        ensures second { result.second ≡ (gives self.old.kept port packet).second }
        ensures next { self.new ≡ record {
          kept = after_feed self.old.kept port packet;
          prepared =
              None;
        } }
        ensures history { (fed : Lists) → StandsFor self.old.kept fed → GoesOn self.old.kept
            self.new.kept fed port packet (lists result.first result.second) }
    {
        let Some(
            Made {
                first,
                second,
                room: _,
            },
        ) = self.prepared.take()
        else {
            unreachable!()
        };
        let mut first = first;
        self.advance(port, packet, &mut first);
        self.fed = count(self.fed, 1);
        self.given = count(count(self.given, first.len()), second.len());
        Fed {
            first: Items::from_vec(first),
            second: Items::from_vec(second),
        }
    }

    /// Moves the packet to where its kind wants it, and a group that ends to the first output.
    #[tactic(auto, unfolding(crate::specs::Memory::moved, crate::specs::Memory::made))]
    fn advance(&mut self, port: u16, packet: Packet, first: &mut Vec<Packet>)
        requires room { vec_len first.old + (made self.old.kept packet).room ≤ vec_capacity
            first.old }
        ensures first { first.new.items ≡ first.old.items ++ moved self.old.kept port packet }
        ensures next { self.new ≡ record self.old {
          kept = record self.old.kept {
            phase =
                next_phase self.old.kept.kind self.old.kept.item self.old.kept.phase packet;
            group =
                next_group self.old.kept.kind self.old.kept.group packet;
          };
        } }
    {
        match self.kind {
            BlockKind::Tx | BlockKind::Rx | BlockKind::Sink => {}
            BlockKind::Fifo | BlockKind::Split => first.push_reserved(packet),
            BlockKind::Switch(n) => {
                if port == n {
                    first.push_reserved(packet);
                }
            }
            BlockKind::Keep(n) => {
                let samples = sample_count(self.item, &packet);
                self.phase = ((self.phase as usize + samples) % n as usize) as u32;
                if passes_whole(n, self.item, &packet) {
                    if !is_left_out(&packet) {
                        first.push_reserved(packet);
                    }
                }
            }
            BlockKind::Repeat(n) => {
                if passes_whole(n, self.item, &packet) {
                    first.push_reserved(packet);
                }
            }
            BlockKind::Replay(_) => {
                if self.closes(&packet) {
                    move_all(&mut self.group, first);
                    first.push_reserved(packet);
                } else {
                    self.group.push_reserved(packet);
                }
            }
        }
    }

    /// The registers of the block: its kind's code, its number n or 0, and the packets that it was fed and gave.
    ///
    /// The counts stand still at 2^32 - 1.
    pub fn registers(&self) -> [u32; 4]
        ensures { result ≡ block_registers self.now.kept }
    {
        let (code, number) = match self.kind {
            BlockKind::Tx | BlockKind::Rx => (0, 0),
            BlockKind::Fifo => (1, 0),
            BlockKind::Split => (2, 0),
            BlockKind::Keep(n) => (3, n),
            BlockKind::Repeat(n) => (4, n),
            BlockKind::Replay(n) => (5, n),
            BlockKind::Switch(n) => (6, n),
            BlockKind::Sink => (7, 0),
        };
        [code, number as u32, self.fed, self.given]
    }

    /// The register at an address, 4 bytes each; none where there is no such register.
    pub fn register(&self, addr: u32) -> Option<u32>
        ensures { result ≡ (if addr % 4 == 0 then slice_get (block_registers self.now.kept) (addr
            / 4) else None) }
    {
        if addr % 4 == 0 {
            self.registers().get((addr / 4) as usize).copied()
        } else {
            None
        }
    }
}

/// Moves the packets to the end of a list that has room for them.
fn move_all(group: &mut Vec<Packet>, list: &mut Vec<Packet>)
    requires { vec_len list.old + vec_len group.old ≤ vec_capacity list.old }
    ensures group { group.new.items ≡ [] }
    ensures empty { vec_len group.new ≡ 0 }
    ensures kept { vec_capacity group.new ≡ vec_capacity group.old }
    ensures list { list.new.items ≡ list.old.items ++ group.old.items }
    ensures len { vec_len list.new ≡ vec_len list.old + vec_len group.old }
    ensures room { vec_capacity list.old ≤ vec_capacity list.new }
{
    match list.append(group) {
        Ok(()) => {}
        Err(_) => unreachable!(),
    }
}

/// A count of packets, which stands still at the end of its type.
fn count(total: u32, more: usize) -> u32
    ensures { result ≡ counted (total + more) }
{
    let more = more.min(u32::MAX as usize);
    total.saturating_add(more as u32)
}
