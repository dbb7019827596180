ghost use Rattle.std.specs.Prelude.{◌≡◌, ◌↔◌, ◌<◌, ◌^◌, IsTrue};
ghost use Rattle.chdr_words.specs.Cfg.{cfg_of, cfg_payload};
ghost use Rattle.chdr_words.specs.NodeInfo.{FitsInfo, FitsNodeKind, info_of, info_payload, node_kind_number, node_kind_of};

use crate::Word;

/// What kind of node it is; the number is its code on the wire, 0 or 4 to 15 for `Other`.
#[derive(Clone, Copy, Debug, PartialEq, Eq)]
pub enum NodeKind {
    Crossbar,
    /// A stream endpoint.
    Endpoint,
    Transport,
    Other(u8),
}

/// What a node tells of itself, in the 48 bits of one operation's payload.
///
///      47        30 29        20 19   16 15        0
///     +------------+------------+-------+-----------+
///     | extended   | instance   | kind  | device    |
///     +------------+------------+-------+-----------+
///
/// Rule: docs/wire-format.md, "Node information".
#[derive(Clone, Copy, Debug, PartialEq, Eq)]
pub struct NodeInfo {
    /// What the kind tells besides, below 2^18.
    pub extended: u32,
    /// Below 1,024.
    pub instance: u16,
    pub kind: NodeKind,
    pub device: u16,
}

/// A configuration address and its value, in the 48 bits of one operation's payload.
///
///      47               16 15        0
///     +-------------------+-----------+
///     | value             | address   |
///     +-------------------+-----------+
///
/// Rule: docs/wire-format.md, "Configuration".
#[derive(Clone, Copy, Debug, PartialEq, Eq)]
pub struct Cfg {
    pub value: u32,
    pub addr: u16,
}

impl NodeKind {
    /// Whether `Other` holds a code without a name.
    pub fn fits(self) -> bool
        ensures { IsTrue result ↔ FitsNodeKind self }
    {
        match self {
            NodeKind::Crossbar | NodeKind::Endpoint | NodeKind::Transport => true,
            NodeKind::Other(code) => code == 0 || 4 <= code && code < 16,
        }
    }

    fn of(code: u8) -> NodeKind
        ensures { result ≡ node_kind_of code }
    {
        match code {
            1 => NodeKind::Crossbar,
            2 => NodeKind::Endpoint,
            3 => NodeKind::Transport,
            0 | 4..=255 => NodeKind::Other(code),
        }
    }

    fn number(self) -> u8
        requires { FitsNodeKind self }
        ensures number { result ≡ node_kind_number self }
        ensures below { result < 2 ^ 4 }
        ensures back { node_kind_of result ≡ self }
    {
        match self {
            NodeKind::Crossbar => 1,
            NodeKind::Endpoint => 2,
            NodeKind::Transport => 3,
            NodeKind::Other(code) => code,
        }
    }
}

impl NodeInfo {
    /// Whether each field fits its bits.
    pub fn fits(&self) -> bool
        ensures { IsTrue result ↔ FitsInfo self.now }
    {
        self.extended < 1 << 18 && self.instance < 1 << 10 && self.kind.fits()
    }

    /// The payload that spells this information.
    pub fn pack(&self) -> u64
        requires { FitsInfo self.now }
        ensures packs { result ≡ info_payload self.now }
        ensures below { result < 2 ^ 48 }
        ensures unpacks { info_of result ≡ self.now }
    {
        self.extended as u64 * (1 << 30)
            + self.instance as u64 * (1 << 20)
            + self.kind.number() as u64 * (1 << 16)
            + self.device as u64
    }

    /// The information that a payload spells; bits 63..48 aren't read.
    pub fn unpack(payload: u64) -> NodeInfo
        ensures { result ≡ info_of payload }
    {
        let word = Word(payload);
        NodeInfo {
            extended: word.field(47, 30) as u32,
            instance: word.field(29, 20) as u16,
            kind: NodeKind::of(word.field(19, 16) as u8),
            device: word.field(15, 0) as u16,
        }
    }
}

impl Cfg {
    /// The payload that spells this pair.
    pub fn pack(&self) -> u64
        ensures packs { result ≡ cfg_payload self.now }
        ensures below { result < 2 ^ 48 }
        ensures unpacks { cfg_of result ≡ self.now }
    {
        self.value as u64 * (1 << 16) + self.addr as u64
    }

    /// The pair that a payload spells; bits 63..48 aren't read.
    pub fn unpack(payload: u64) -> Cfg
        ensures { result ≡ cfg_of payload }
    {
        let word = Word(payload);
        Cfg {
            value: word.field(47, 16) as u32,
            addr: word.field(15, 0) as u16,
        }
    }
}
