use crate::Field;

/// A number of a script: where it stands, what its faults name, its range, and its default.
///
/// A number without a default is required, or it is an element of a list. The elements of a list
/// have the list's field for both names.
#[derive(Clone, Copy, Debug)]
pub struct Number {
    pub key: Field,
    pub told: Field,
    pub low: u64,
    pub high: u64,
    pub default: Option<u64>,
}

// the script itself

pub const RFNOC: Number = Number {
    key: Field::Rfnoc,
    told: Field::Rfnoc,
    low: 1,
    high: 2,
    default: None,
};

// net

pub const ROOM: Number = Number {
    key: Field::Room,
    told: Field::Room,
    low: 0,
    high: 65_535,
    default: Some(4),
};

pub const PORTS: Number = Number {
    key: Field::Ports,
    told: Field::Nodes,
    low: 1,
    high: 32,
    default: None,
};

pub const NODE_EPID: Number = Number {
    key: Field::Epid,
    told: Field::Nodes,
    low: 1,
    high: 65_535,
    default: None,
};

pub const BANK: Number = Number {
    key: Field::Bank,
    told: Field::Nodes,
    low: 0,
    high: 15,
    default: None,
};

pub const LINK_NODE: Number = Number {
    key: Field::Links,
    told: Field::Links,
    low: 0,
    high: 65_535,
    default: None,
};

pub const LINK_PORT: Number = Number {
    key: Field::Links,
    told: Field::Links,
    low: 0,
    high: 255,
    default: None,
};

// discover, route, control, unload

pub const HOST: Number = Number {
    key: Field::Host,
    told: Field::Host,
    low: 1,
    high: 65_535,
    default: None,
};

pub const ROUTE_FROM: Number = Number {
    key: Field::From,
    told: Field::From,
    low: 1,
    high: 65_535,
    default: None,
};

pub const TO: Number = Number {
    key: Field::To,
    told: Field::To,
    low: 1,
    high: 65_535,
    default: None,
};

pub const PORT: Number = Number {
    key: Field::Port,
    told: Field::Port,
    low: 0,
    high: 1023,
    default: None,
};

pub const ADDR: Number = Number {
    key: Field::Addr,
    told: Field::Addr,
    low: 0,
    high: 1_048_575,
    default: None,
};

pub const WORD: Number = Number {
    key: Field::Words,
    told: Field::Words,
    low: 0,
    high: 4_294_967_295,
    default: None,
};

pub const ENABLES: Number = Number {
    key: Field::Enables,
    told: Field::Enables,
    low: 0,
    high: 15,
    default: Some(15),
};

pub const SLOT: Number = Number {
    key: Field::Port,
    told: Field::Port,
    low: 0,
    high: 15,
    default: None,
};

// block

pub const KEEP: Number = Number {
    key: Field::Count,
    told: Field::Count,
    low: 1,
    high: 1024,
    default: None,
};

pub const TIMES: Number = Number {
    key: Field::Count,
    told: Field::Count,
    low: 1,
    high: 16,
    default: None,
};

pub const SWITCH: Number = Number {
    key: Field::Count,
    told: Field::Count,
    low: 0,
    high: 1,
    default: None,
};

pub const IN_EPID: Number = Number {
    key: Field::Ins,
    told: Field::Ins,
    low: 1,
    high: 65_535,
    default: None,
};

pub const OUT_EPID: Number = Number {
    key: Field::Outs,
    told: Field::Outs,
    low: 1,
    high: 65_535,
    default: None,
};

pub const PACKETS: Number = Number {
    key: Field::Packets,
    told: Field::Packets,
    low: 1,
    high: 16_384,
    default: None,
};

pub const TIME: Number = Number {
    key: Field::Time,
    told: Field::Time,
    low: 0,
    high: u64::MAX,
    default: None,
};

// connect

pub const FROM_PORT: Number = Number {
    key: Field::From,
    told: Field::From,
    low: 0,
    high: 65_535,
    default: None,
};

pub const TO_PORT: Number = Number {
    key: Field::To,
    told: Field::To,
    low: 0,
    high: 65_535,
    default: None,
};

pub const CAP_BYTES: Number = Number {
    key: Field::Cap,
    told: Field::Cap,
    low: 1,
    high: 1_099_511_627_775,
    default: Some(65_536),
};

pub const CAP_PACKETS: Number = Number {
    key: Field::Cap,
    told: Field::Cap,
    low: 1,
    high: 1024,
    default: Some(32),
};

pub const FREQ_BYTES: Number = Number {
    key: Field::Freq,
    told: Field::Freq,
    low: 1,
    high: 1_099_511_627_775,
    default: Some(8192),
};

pub const FREQ_PACKETS: Number = Number {
    key: Field::Freq,
    told: Field::Freq,
    low: 1,
    high: 1024,
    default: Some(4),
};

pub const MAX: Number = Number {
    key: Field::Max,
    told: Field::Max,
    low: 16,
    high: 8192,
    default: Some(8192),
};

pub const START: Number = Number {
    key: Field::Start,
    told: Field::Start,
    low: 0,
    high: 1_099_511_627_775,
    default: Some(0),
};

// set

pub const SET_BLOCK: Number = Number {
    key: Field::Block,
    told: Field::Block,
    low: 0,
    high: 65_535,
    default: None,
};

pub const SET_PORT: Number = Number {
    key: Field::Port,
    told: Field::Port,
    low: 0,
    high: 65_535,
    default: None,
};

pub const RATE: Number = Number {
    key: Field::Value,
    told: Field::Value,
    low: 1,
    high: u64::MAX,
    default: None,
};

pub const ITEM: Number = Number {
    key: Field::Value,
    told: Field::Value,
    low: 4,
    high: 8,
    default: None,
};

pub const SPP: Number = Number {
    key: Field::Value,
    told: Field::Value,
    low: 1,
    high: 1022,
    default: None,
};

// run, twin, duplex, and the entries of lose lists

pub const SEED: Number = Number {
    key: Field::Seed,
    told: Field::Seed,
    low: 0,
    high: u64::MAX,
    default: Some(0),
};

pub const CUT: Number = Number {
    key: Field::Cut,
    told: Field::Cut,
    low: 0,
    high: 65_535,
    default: None,
};

pub const LOSE_STREAM: Number = Number {
    key: Field::Lose,
    told: Field::Lose,
    low: 0,
    high: 65_535,
    default: None,
};

pub const LOSE_PLACE: Number = Number {
    key: Field::Lose,
    told: Field::Lose,
    low: 0,
    high: 4_294_967_295,
    default: None,
};

// acts

pub const ACT_STREAM: Number = Number {
    key: Field::Acts,
    told: Field::Acts,
    low: 0,
    high: 65_535,
    default: None,
};

pub const ACT_TAKEN: Number = Number {
    key: Field::Acts,
    told: Field::Acts,
    low: 0,
    high: 65_535,
    default: None,
};

pub const ACT_TO: Number = Number {
    key: Field::Acts,
    told: Field::Acts,
    low: 1,
    high: 65_535,
    default: None,
};

pub const ACT_PORT: Number = Number {
    key: Field::Acts,
    told: Field::Acts,
    low: 0,
    high: 1023,
    default: None,
};

pub const ACT_ADDR: Number = Number {
    key: Field::Acts,
    told: Field::Acts,
    low: 0,
    high: 1_048_575,
    default: None,
};

pub const ACT_WORD: Number = Number {
    key: Field::Acts,
    told: Field::Acts,
    low: 0,
    high: 4_294_967_295,
    default: None,
};

pub const ACT_SLOT: Number = Number {
    key: Field::Acts,
    told: Field::Acts,
    low: 0,
    high: 15,
    default: None,
};
