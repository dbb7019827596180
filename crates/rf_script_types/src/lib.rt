//! What a script says: its commands, the table of its fields, and the faults of a text that is none.
#![tactic(auto)]

mod act;
mod command;
mod fault;
mod field;
mod limits;
mod table;
mod words;

pub use act::{Act, Acts, Due};
pub use command::{Script, ScriptCommand, ScriptCommands};
pub use fault::{ScriptFault, Why};
pub use field::Field;
pub use limits::{ACT_LIMIT, SCRIPT_LIMIT, WORD_LIMIT, command_limit, lose_limit, node_limit};
pub use table::{
    ACT_ADDR, ACT_PORT, ACT_SLOT, ACT_STREAM, ACT_TAKEN, ACT_TO, ACT_WORD, ADDR, BANK, CAP_BYTES,
    CAP_PACKETS, CUT, ENABLES, FREQ_BYTES, FREQ_PACKETS, FROM_PORT, HOST, IN_EPID, ITEM, KEEP,
    LINK_NODE, LINK_PORT, LOSE_PLACE, LOSE_STREAM, MAX, NODE_EPID, Number, OUT_EPID, PACKETS, PORT,
    PORTS, RATE, RFNOC, ROOM, ROUTE_FROM, SEED, SET_BLOCK, SET_PORT, SLOT, SPP, START, SWITCH,
    TIME, TIMES, TO, TO_PORT, WORD,
};
pub use words::{
    ActWord, KindWord, NodeWord, Sort, Verb, op_name, op_of, policy_name, policy_of, property_name,
    property_of, side_name, side_of,
};
