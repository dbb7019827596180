//! The words of a CHDR packet: endpoint ids, the sizes on the wire, and the four payloads.
#![tactic(auto)]

mod bytes;
mod command;
mod control;
mod epid;
mod fault;
mod header;
pub mod law;
mod lists;
mod management;
mod node_info;
mod operation;
mod status;
mod wire;
mod word;
mod words15;

pub use bytes::{half_at, word_at};
pub use command::{CmdOp, Command, decode_command, encode_command};
pub use control::{
    Control, CtrlOp, CtrlStatus, decode_control, encode_control, is_control, is_plain_control,
};
pub use epid::Epid;
pub use fault::MsgFault;
pub use header::{Header, PktType};
pub use lists::{Bytes, Bytes32, EpidList, Hop, HopList, WordList};
pub use management::{
    Management, MgmtOp, decode_management, encode_management, is_management, is_plain_management,
    op_count,
};
pub use node_info::{Cfg, NodeInfo, NodeKind};
pub use operation::Operation;
pub use status::{Status, StatusCode, decode_status, encode_status, is_plain_status};
pub use wire::wire_size;
pub use word::Word;
pub use words15::Words15;
