//! How a caller uses both ends: a sender and a receiver over a list that loses one packet.
ghost use Rattle.std.specs.Prelude.{◌≡◌, ◌+◌, ◌*◌, ◌≤◌, None, Some};
ghost use Rattle.chdr_words.specs.declared.status.StatusCode.TheVariants.{SeqErr};
ghost use Rattle.stream_endpoint.specs.declared.state.OutState.TheVariants.{Resyncing, Running};
ghost use Rattle.stream_endpoint.specs.Flow.{HasRoom};
ghost use Rattle.stream_endpoint.specs.InEnd.{info_by};
ghost use Rattle.stream_endpoint.specs.Receiver.{expected};
ghost use Rattle.stream_endpoint.specs.Sender.{fallen, next_number};

use chdr_words::{CmdOp, Epid, Status, StatusCode};
use stream_endpoint::{Count, Flow, InEnd, OutEnd, OutState, Policy};

/// Three packets of one wire size are sent over a list that loses the second. The receiver keeps the
/// first, breaks at the third and reports the gap, and the sender falls.
fn lose_the_second(out: &mut OutEnd, into: &mut InEnd, wire: u32) -> Status
    requires running { out.old.sender.state ≡ Running }
    requires packets { out.old.sender.outstanding.packets + 3 ≤ out.old.flow.cap_packets }
    requires bytes { out.old.sender.outstanding.bytes + 3 * wire ≤ out.old.flow.cap_bytes }
    requires good { into.old.receiver.broken ≡ None }
    requires agreed { expected into.old.receiver ≡ next_number out.old.sender }
    requires room { HasRoom into.old.flow into.old.receiver.buffered wire }
    ensures code { result.code ≡ SeqErr }
    ensures gap { result.info ≡ info_by into.new.receiver.broken }
    ensures falls { out.new.sender.state ≡ fallen out.old.policy }
{
    let first = out.sent(wire);
    out.sent(wire);
    let third = out.sent(wire);
    into.arrive(first, wire);
    into.arrive(third, wire);
    let status = into.report();
    out.status(&status);
    status
}

/// A RESYNC and its answer: both ends agree again on the next number, and the sender runs.
fn resynchronise(out: &mut OutEnd, into: &mut InEnd)
    requires { out.old.sender.state ≡ Resyncing }
    ensures good { into.new.receiver.broken ≡ None }
    ensures agreed { expected into.new.receiver ≡ next_number out.new.sender }
    ensures running { out.new.sender.state ≡ Running }
{
    let resync = out.command(CmdOp::Resync);
    into.command(&resync);
    let status = into.report();
    out.status(&status);
}

#[test]
fn a_loss_is_told_and_made_up_for(rt: HostRuntime) {
    let flow = Flow {
        cap_bytes: 96,
        cap_packets: 4,
        freq_bytes: 24,
        freq_packets: 1,
        max: 24,
    };
    let mut out = OutEnd::new(Epid(1), &flow, 65_535, 0, Policy::Auto);
    let mut into = InEnd::new(Epid(2), &flow, 65_535, 0);
    into.command(&out.command(CmdOp::Init));
    out.status(&into.report());
    let status = lose_the_second(&mut out, &mut into, 24);
    assert_eq!(rt; (status.code, status.info), (StatusCode::SeqErr, 1));
    resynchronise(&mut out, &mut into);
    assert_eq!(rt;
        (out.state(), out.outstanding()),
        (
            OutState::Running,
            Count {
                packets: 1,
                bytes: 24
            }
        )
    );
}
