ghost use Rattle.std.specs.Prelude.{◌≡◌, Option};
ghost use Rattle.chdr_words.specs.Control.{FitsControl};
ghost use Rattle.block_registers.specs.Operations.{Fixed, acknowledgement, answer};

use chdr_words::{Control, CtrlStatus, Epid, Words15};

/// The acknowledgement of a request by the endpoint `me`: OKAY with these words, or CMDERR.
#[tactic(auto, unfolding(crate::specs::Operations::acknowledgement))]
pub fn acknowledge(me: Epid, request: &Control, outcome: Option<Words15>) -> Control
    ensures { result ≡ acknowledgement me request.now outcome }
{
    let (status, words) = match outcome {
        Some(words) => (CtrlStatus::Okay, words),
        None => (CtrlStatus::CmdErr, Words15::new()),
    };
    Control {
        src: me,
        ack: true,
        time: None,
        seq: request.seq,
        src_port: request.dst_port,
        dst_port: request.src_port,
        status,
        op: request.op,
        enables: request.enables,
        addr: request.addr,
        words,
    }
}
