//! The names of codes in a listing.
ghost use Rattle.std.specs.Prelude.{◌≡◌, ◌++◌, OnOk};
ghost use Rattle.capture_tool.specs.Names.{cmd_op_text, ctrl_op_text, ctrl_status_text, status_code_text};

use chdr_words::{CmdOp, CtrlOp, CtrlStatus, StatusCode};
use rf_base::Memory;
use rf_outside::Text;

pub fn put_status_code(out: &mut Text, code: StatusCode) -> Result<(), Memory>
    ensures { OnOk result (out.new ≡ out.old ++ status_code_text code) }
{
    match code {
        StatusCode::Okay => out.put(b"OKAY"),
        StatusCode::CmdErr => out.put(b"CMDERR"),
        StatusCode::SeqErr => out.put(b"SEQERR"),
        StatusCode::DataErr => out.put(b"DATAERR"),
        StatusCode::RtErr => out.put(b"RTERR"),
        StatusCode::Other(number) => out.put_field(b"OTHER", number as u64),
    }
}

pub fn put_cmd_op(out: &mut Text, op: CmdOp) -> Result<(), Memory>
    ensures { OnOk result (out.new ≡ out.old ++ cmd_op_text op) }
{
    match op {
        CmdOp::Init => out.put(b"INIT"),
        CmdOp::Ping => out.put(b"PING"),
        CmdOp::Resync => out.put(b"RESYNC"),
        CmdOp::Other(number) => out.put_field(b"OTHER", number as u64),
    }
}

pub fn put_ctrl_op(out: &mut Text, op: CtrlOp) -> Result<(), Memory>
    ensures { OnOk result (out.new ≡ out.old ++ ctrl_op_text op) }
{
    match op {
        CtrlOp::Sleep => out.put(b"SLEEP"),
        CtrlOp::Write => out.put(b"WRITE"),
        CtrlOp::Read => out.put(b"READ"),
        CtrlOp::ReadWrite => out.put(b"READ_WRITE"),
        CtrlOp::BlockWrite => out.put(b"BLOCK_WRITE"),
        CtrlOp::BlockRead => out.put(b"BLOCK_READ"),
        CtrlOp::Poll => out.put(b"POLL"),
        CtrlOp::Other(number) => out.put_field(b"OTHER", number as u64),
        CtrlOp::User(number) => out.put_field(b"USER", number as u64),
    }
}

pub fn put_ctrl_status(out: &mut Text, status: CtrlStatus) -> Result<(), Memory>
    ensures { OnOk result (out.new ≡ out.old ++ ctrl_status_text status) }
{
    match status {
        CtrlStatus::Okay => out.put(b"OKAY"),
        CtrlStatus::CmdErr => out.put(b"CMDERR"),
        CtrlStatus::TsErr => out.put(b"TSERR"),
        CtrlStatus::Warning => out.put(b"WARNING"),
    }
}
