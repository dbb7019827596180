ghost use Rattle.std.specs.Prelude.{◌≡◌, ◌↔◌, ◌<◌, ◌^◌, ◌≢◌, length, IfOk, IsErrOf, IsTrue};
ghost use Rattle.chdr_words.specs.Command.{FitsCmdOp, FitsCommand, SpellsCommand, cmd_number, cmd_op_of, command_read};

use crate::bytes::{two_words, word_at};
use crate::{Epid, MsgFault, Word};

/// What a stream command asks; the number is its code on the wire, 3 to 15 for `Other`.
#[derive(Clone, Copy, Debug, PartialEq, Eq)]
pub enum CmdOp {
    Init,
    Ping,
    Resync,
    Other(u8),
}

/// A stream command, from a sender to its receiver.
///
///      63              24 23       20 19  16 15     0
///     +------------------+-----------+------+--------+
///     | packets          | op_data   | op   | src    |
///     +------------------+-----------+------+--------+
///     | bytes                                        |
///     +----------------------------------------------+
///
/// Rule: docs/wire-format.md, "Stream command".
#[derive(Clone, Copy, Debug, PartialEq, Eq)]
pub struct Command {
    /// Packets: the frequency of INIT, the totals of RESYNC modulo 2^40.
    pub packets: u64,
    /// Data of the operation, below 16.
    pub op_data: u8,
    pub op: CmdOp,
    pub src: Epid,
    /// Bytes: the frequency of INIT, the totals of RESYNC modulo 2^64.
    pub bytes: u64,
}

impl CmdOp {
    /// Whether `Other` holds a code without a name.
    pub fn fits(self) -> bool
        ensures { IsTrue result ↔ FitsCmdOp self }
    {
        match self {
            CmdOp::Init | CmdOp::Ping | CmdOp::Resync => true,
            CmdOp::Other(code) => 3 <= code && code < 16,
        }
    }
}

impl Command {
    /// Whether each field fits its bits.
    pub fn fits(&self) -> bool
        ensures { IsTrue result ↔ FitsCommand self.now }
    {
        self.packets < 1 << 40 && self.op_data < 1 << 4 && self.op.fits()
    }
}

fn op_of(number: u8) -> CmdOp
    ensures { result ≡ cmd_op_of number }
{
    match number {
        0 => CmdOp::Init,
        1 => CmdOp::Ping,
        2 => CmdOp::Resync,
        3..=255 => CmdOp::Other(number),
    }
}

fn number_of(op: CmdOp) -> u8
    requires { FitsCmdOp op }
    ensures number { result ≡ cmd_number op }
    ensures below { result < 2 ^ 4 }
{
    match op {
        CmdOp::Init => 0,
        CmdOp::Ping => 1,
        CmdOp::Resync => 2,
        CmdOp::Other(other) => other,
    }
}

/// The one spelling of the command.
pub fn encode_command(v: &Command) -> [u8; 16]
    requires { FitsCommand v.now }
    ensures { SpellsCommand v.now result }
{
    let op = number_of(v.op) as u64 * (1 << 16);
    let data = v.op_data as u64 * (1 << 20);
    two_words(v.packets * (1 << 24) + data + op + v.src.0 as u64, v.bytes)
}

/// The command that the payload spells; each payload of the right size spells one.
pub fn decode_command(b: &[u8]) -> Result<Command, MsgFault>
    ensures reads { IfOk result (λ c. SpellsCommand c b.now) }
    ensures accepts { (c : Command) → SpellsCommand c b.now → result ≡ Ok c }
    ensures refuses { IsErrOf result MsgFault.BadCommandLength ↔ (length b.now ≢ 16) }
    ensures exact { result ≡ command_read b.now }
{
    if b.len() != 16 {
        return Err(MsgFault::BadCommandLength);
    }
    let first = Word(word_at(b, 0));
    Ok(Command {
        packets: first.field(63, 24),
        op_data: first.field(23, 20) as u8,
        op: op_of(first.field(19, 16) as u8),
        src: Epid(first.field(15, 0) as u16),
        bytes: word_at(b, 8),
    })
}
