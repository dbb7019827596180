ghost use Rattle.std.specs.Prelude.{◌≡◌, ◌<◌, ◌++◌, [], ◌∷◌, length, slice_get, option_copied, OnOk, OnErr, MatchOption};

use chdr_packets::Packet;
use rf_base::Memory;
use std::alloc::Global;
use std::collections::VecDeque;
use std::marker::Model;

/// Packets that lie at a node, the first one first; contracts see them with the room that is spare.
#[derive(Debug, Drop)]
pub struct Packets {
    packets: VecDeque<Packet>,
}

impl Model for Packets {
    ghost use Rattle.std.specs.Prelude.{◌-◌};
    ghost use Rattle.std.specs.VecDeque.{deque_capacity, deque_len};
    ghost use Rattle.fabric_nodes.specs.Packets.{PacketsSeen};

    ghost Value = { PacketsSeen };

    ghost view = { λ list. record {
      packets = list.packets.items;
      spare = deque_capacity list.packets - deque_len list.packets;
    } };
}

impl Packets {
    pub fn new(alloc: Global) -> Packets
        ensures { result.packets ≡ [] }
    {
        Packets {
            packets: VecDeque::new(alloc),
        }
    }

    pub fn len(&self) -> usize
        ensures { result ≡ length self.now.packets }
    {
        self.packets.len()
    }

    /// The packet that leaves next.
    pub fn first(&self) -> Option<&Packet>
        ensures { option_copied result ≡ slice_get self.now.packets 0 }
    {
        self.packets.front()
    }

    /// Makes room for one packet more.
    pub fn reserve(&mut self) -> Result<(), Memory>
        ensures packets { self.new.packets ≡ self.old.packets }
        ensures room { OnOk result (0 < self.new.spare) }
    {
        self.packets.reserve(1)?;
        Ok(())
    }

    /// Appends a packet; it takes no memory.
    pub fn push_reserved(&mut self, packet: Packet)
        requires { 0 < self.old.spare }
        ensures { self.new.packets ≡ self.old.packets ++ packet ∷ [] }
    {
        self.packets.push_back_reserved(packet);
    }

    /// Appends a packet. At `Err` the list stays as it was, and the packet is dropped.
    pub fn push(&mut self, packet: Packet) -> Result<(), Memory>
        ensures ok { OnOk result (self.new.packets ≡ self.old.packets ++ packet ∷ []) }
        ensures err { OnErr result (self.new.packets ≡ self.old.packets) }
    {
        self.packets.push_back(packet)?;
        Ok(())
    }

    /// The first packet leaves.
    pub fn pop(&mut self) -> Option<Packet>
        ensures first { MatchOption result (self.old.packets ≡ []) (λ packet. self.old.packets ≡ packet ∷ self.new.packets) }
        ensures none { MatchOption result (self.new.packets ≡ []) (λ packet. Unit {0}) }
    {
        self.packets.pop_front()
    }
}
