ghost use Rattle.std.specs.Prelude.{◌≡◌, ◌↔◌, IsTrue};
ghost use Rattle.chdr_words.specs.Management.{FitsOp};
ghost use Rattle.chdr_words.specs.Operation.{FitsOperation, operation_of, spelled_op};

use crate::{Cfg, MgmtOp, NodeInfo, Word};

/// What a management operation asks of a node, or tells; the number of `Other` is its code, 9 to
/// 255.
///
/// Rule: docs/wire-format.md, "Operations".
#[derive(Clone, Copy, Debug, PartialEq, Eq)]
pub enum Operation {
    Nop,
    Advertise,
    /// The port of the exit, below 1,024.
    SelectDest(u16),
    Return,
    InfoReq,
    InfoResp(NodeInfo),
    /// The address is an EPID, the value a port.
    CfgWrite(Cfg),
    /// The address is an EPID.
    CfgRead(u16),
    CfgReadResp(Cfg),
    Other(u8),
}

impl Operation {
    /// Whether its port or information fits its bits, and `Other` holds a code without a name.
    pub fn fits(self) -> bool
        ensures { IsTrue result ↔ FitsOperation self }
    {
        match self {
            Operation::SelectDest(port) => port < 1024,
            Operation::InfoResp(info) => info.fits(),
            Operation::Other(code) => 9 <= code,
            Operation::Nop
            | Operation::Advertise
            | Operation::Return
            | Operation::InfoReq
            | Operation::CfgWrite(_)
            | Operation::CfgRead(_)
            | Operation::CfgReadResp(_) => true,
        }
    }

    /// The operation that a code and payload spell.
    ///
    /// Bits of the payload that its name gives no meaning aren't read.
    pub fn of(op: MgmtOp) -> Operation
        ensures { result ≡ operation_of op }
    {
        let payload = Word(op.payload);
        match op.code {
            0 => Operation::Nop,
            1 => Operation::Advertise,
            2 => Operation::SelectDest(payload.field(9, 0) as u16),
            3 => Operation::Return,
            4 => Operation::InfoReq,
            5 => Operation::InfoResp(NodeInfo::unpack(op.payload)),
            6 => Operation::CfgWrite(Cfg::unpack(op.payload)),
            7 => Operation::CfgRead(payload.field(15, 0) as u16),
            8 => Operation::CfgReadResp(Cfg::unpack(op.payload)),
            9..=255 => Operation::Other(op.code),
        }
    }

    /// The code and payload that spell the operation; reading them gives it.
    ///
    /// Bits of the payload that its name gives no meaning are zero.
    pub fn spelled(self) -> MgmtOp
        requires { FitsOperation self }
        ensures spells { result ≡ spelled_op self }
        ensures back { operation_of result ≡ self }
        ensures fits { FitsOp result }
    {
        let (code, payload) = match self {
            Operation::Nop => (0, 0),
            Operation::Advertise => (1, 0),
            Operation::SelectDest(port) => (2, port as u64),
            Operation::Return => (3, 0),
            Operation::InfoReq => (4, 0),
            Operation::InfoResp(info) => (5, info.pack()),
            Operation::CfgWrite(cfg) => (6, cfg.pack()),
            Operation::CfgRead(addr) => (7, addr as u64),
            Operation::CfgReadResp(cfg) => (8, cfg.pack()),
            Operation::Other(code) => (code, 0),
        };
        MgmtOp { code, payload }
    }
}
