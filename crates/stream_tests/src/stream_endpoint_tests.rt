use chdr_words::StatusCode::{Okay, SeqErr};
use chdr_words::{CmdOp, Command, Epid, Status, StatusCode, Word};
use net_faults::{Fault, Faults};
use rf_base::Copyable;
use std::process::Abort;
use std::test::Fail;
use stream_endpoint::OutState::{Opening, Resyncing, Running};
use stream_endpoint::{Arrived, Count, Flow, Gap, InEnd, OutEnd, OutState, Policy};

/// 96 bytes and 4 packets, with a status after each packet of 24 bytes.
const FLOW: Flow = Flow {
    cap_bytes: 96,
    cap_packets: 4,
    freq_bytes: 24,
    freq_packets: 1,
    max: 24,
};

fn sender(start_packets: u64, start_bytes: u64, policy: Policy) -> OutEnd {
    OutEnd::new(Epid(1), &FLOW, start_packets, start_bytes, policy)
}

fn receiver(start_packets: u64, start_bytes: u64) -> InEnd {
    InEnd::new(Epid(2), &FLOW, start_packets, start_bytes)
}

fn count(packets: u64, bytes: u64) -> Count {
    Count { packets, bytes }
}

/// Sends the command.
fn command(rt: &impl Abort, out: &mut OutEnd, op: CmdOp) -> Command {
    assert!(rt; out.may_command(op));
    out.command(op)
}

/// Sends a packet of 24 bytes.
fn send(rt: &impl Abort, out: &mut OutEnd) -> u16 {
    assert!(rt; out.may_send(24));
    out.sent(24)
}

/// A packet of 24 bytes arrives.
fn arrive(rt: &impl Abort, into: &mut InEnd, seq: u16) -> Arrived {
    assert!(rt; into.finds_room(seq, 24));
    into.arrive(seq, 24)
}

/// Packets of 24 bytes are taken.
fn take(rt: &impl Abort, into: &mut InEnd, packets: u32) {
    let bytes = packets as u64 * 24;
    let buffered = into.buffered();
    assert!(rt; packets as u64 <= buffered.packets && bytes <= buffered.bytes);
    into.taken(packets, bytes);
}

fn report(rt: &impl Abort, into: &mut InEnd) -> Status {
    assert!(rt; into.due());
    into.report()
}

/// Sends the command, and takes in its answer.
fn ask(rt: &impl Abort, out: &mut OutEnd, into: &mut InEnd, op: CmdOp) -> Status {
    let command = command(rt, out, op);
    into.command(&command);
    let status = report(rt, into);
    out.status(&status);
    status
}

#[test]
fn a_flow_reports_before_credit_ends(rt: HostRuntime) {
    for (freq_bytes, valid) in [(64, false), (24, true), (40, true), (41, false), (0, false)] {
        let flow = Flow {
            cap_bytes: 64,
            freq_bytes,
            ..FLOW
        };
        assert_eq!(rt; flow.valid(), valid, "at {freq_bytes}");
    }
}

#[test]
fn two_of_three_packets_have_credit(rt: HostRuntime) {
    let flow = Flow {
        cap_bytes: 64,
        ..FLOW
    };
    let mut out = OutEnd::new(Epid(1), &flow, 0, 0, Policy::Auto);
    let mut into = InEnd::new(Epid(2), &flow, 0, 0);
    assert_eq!(rt; out.may_send(24), false);
    ask(&rt, &mut out, &mut into, CmdOp::Init);
    send(&rt, &mut out);
    assert_eq!(rt; out.may_send(24), true);
    send(&rt, &mut out);
    assert_eq!(rt; out.may_send(24), false);
}

#[test]
fn a_resync_subtracts_what_is_buffered(rt: HostRuntime) {
    let mut into = receiver(0, 0);
    for (seq, arrived) in [
        (0, Arrived::Kept),
        (1, Arrived::Kept),
        (
            3,
            Arrived::Gap {
                expected: 2,
                got: 3,
            },
        ),
        (4, Arrived::Discarded),
    ] {
        assert_eq!(rt; arrive(&rt, &mut into, seq), arrived, "at {seq}");
    }
    into.command(&Command {
        op: CmdOp::Resync,
        op_data: 0,
        src: Epid(1),
        packets: 4,
        bytes: 96,
    });
    let status = report(&rt, &mut into);
    assert_eq!(rt;
        (status.code, status.got_packets, status.got_bytes),
        (StatusCode::Okay, 2, 48)
    );
    take(&rt, &mut into, 2);
    let status = report(&rt, &mut into);
    assert_eq!(rt; (status.got_packets, status.got_bytes), (4, 96));
    assert_eq!(rt; arrive(&rt, &mut into, 4), Arrived::Kept);
}

#[test]
fn counts_and_numbers_wrap(rt: HostRuntime) {
    let mut out = sender((1 << 40) - 1, u64::MAX - 15, Policy::Auto);
    let mut into = receiver((1 << 40) - 1, u64::MAX - 15);
    ask(&rt, &mut out, &mut into, CmdOp::Init);
    assert_eq!(rt; arrive(&rt, &mut into, 65535), Arrived::Kept);
    take(&rt, &mut into, 1);
    let status = report(&rt, &mut into);
    assert_eq!(rt; (status.got_packets, status.got_bytes), (0, 8));
    assert_eq!(rt; send(&rt, &mut out), 65535);
    assert_eq!(rt; send(&rt, &mut out), 0);
    out.status(&status);
    assert_eq!(rt;
        out.outstanding(),
        Count {
            packets: 1,
            bytes: 24,
        }
    );
}

/// A sender and a receiver whose second of three packets is lost.
fn lose_the_second(rt: &impl Abort, start: u64, policy: Policy) -> (OutEnd, InEnd, Gap) {
    let mut out = sender(start, 0, policy);
    let mut into = receiver(start, 0);
    ask(rt, &mut out, &mut into, CmdOp::Init);
    let first = send(rt, &mut out);
    assert!(rt; arrive(rt, &mut into, first) == Arrived::Kept);
    let expected = send(rt, &mut out);
    let got = send(rt, &mut out);
    assert!(rt; arrive(rt, &mut into, got) == Arrived::Gap { expected, got });
    (out, into, Gap { expected, got })
}

#[test]
fn a_gap_is_told_and_resynchronised(rt: HostRuntime) {
    for (start, info) in [
        (0, 65_538),
        (65_533, 4_294_901_759),
        (65_534, 4_294_901_760),
        ((1 << 40) - 3, 4_294_901_759),
        ((1 << 40) - 2, 4_294_901_760),
        ((1 << 40) - 1, 1),
    ] {
        let (mut out, mut into, gap) = lose_the_second(&rt, start, Policy::Auto);
        let status = report(&rt, &mut into);
        assert_eq!(rt; status.code, StatusCode::SeqErr, "from {start}");
        assert_eq!(rt; status.info, info, "from {start}");
        out.status(&status);
        assert_eq!(rt; out.state(), OutState::Resyncing, "from {start}");
        assert_eq!(rt; into.broken(), Some(gap), "from {start}");
        let status = ask(&rt, &mut out, &mut into, CmdOp::Resync);
        assert_eq!(rt; out.state(), OutState::Running, "from {start}");
        assert_eq!(rt; into.broken(), None, "from {start}");
        assert_eq!(rt; status.got_packets, (start + 2) % (1 << 40), "from {start}");
        assert_eq!(rt; status.got_bytes, 48, "from {start}");
        assert_eq!(rt; out.outstanding(), count(1, 24), "from {start}");
        take(&rt, &mut into, 1);
        out.status(&report(&rt, &mut into));
        assert_eq!(rt; out.covered(), true, "from {start}");
        let next = send(&rt, &mut out);
        assert_eq!(rt; arrive(&rt, &mut into, next), Arrived::Kept, "from {start}");
    }
}

#[test]
fn a_gap_halts_a_sender_that_does_not_resynchronise(rt: HostRuntime) {
    let (mut out, mut into, gap) = lose_the_second(&rt, 0, Policy::Off);
    assert_eq!(rt;
        gap,
        Gap {
            expected: 1,
            got: 2,
        }
    );
    out.status(&report(&rt, &mut into));
    assert_eq!(rt; out.state(), OutState::Halted);
    assert_eq!(rt; out.may_send(24), false);
    take(&rt, &mut into, 1);
    out.status(&report(&rt, &mut into));
    assert_eq!(rt; out.state(), OutState::Halted);
}

#[test]
fn an_okay_without_a_ping_or_that_covers_all_changes_nothing(rt: HostRuntime) {
    let mut out = sender(0, 0, Policy::Off);
    let mut into = receiver(0, 0);
    ask(&rt, &mut out, &mut into, CmdOp::Init);
    let first = send(&rt, &mut out);
    send(&rt, &mut out);
    arrive(&rt, &mut into, first);
    take(&rt, &mut into, 1);
    out.status(&report(&rt, &mut into));
    assert_eq!(rt; out.state(), OutState::Running);
    arrive(&rt, &mut into, 1);
    take(&rt, &mut into, 1);
    ask(&rt, &mut out, &mut into, CmdOp::Ping);
    assert_eq!(rt; (out.state(), out.covered()), (OutState::Running, true));
}

#[test]
fn a_gap_is_spelled_in_the_last_word_of_a_status(rt: HostRuntime) {
    let mut into = receiver(0, 0);
    for seq in [0, 1, 3] {
        arrive(&rt, &mut into, seq);
    }
    let status = report(&rt, &mut into);
    assert!(rt; status.info < 1 << 48);
    let word = Word(status.buffer as u64).with_field(63, 16, status.info);
    assert_eq!(rt; word.to_le(), [0, 0, 3, 0, 2, 0, 0, 0]);
}

/// The next word of the choice rule.
fn next(x: u64) -> u64 {
    x.wrapping_mul(6364136223846793005)
        .wrapping_add(1442695040888963407)
}

/// A command whose words are the next two.
fn any_command(x: u64) -> Command {
    let word = Word(next(x));
    Command {
        op: match word.field(19, 16) {
            0 => CmdOp::Init,
            1 => CmdOp::Ping,
            2 => CmdOp::Resync,
            code => CmdOp::Other(code as u8),
        },
        op_data: word.field(23, 20) as u8,
        src: Epid(word.field(15, 0) as u16),
        packets: word.field(63, 24),
        bytes: next(word.0),
    }
}

/// A status whose words are the next four.
fn any_status(x: u64) -> Status {
    let first = Word(next(x));
    let second = Word(next(first.0));
    let got_bytes = next(second.0);
    let fourth = Word(next(got_bytes));
    Status {
        code: match first.field(19, 16) {
            0 => StatusCode::Okay,
            1 => StatusCode::CmdErr,
            2 => StatusCode::SeqErr,
            3 => StatusCode::DataErr,
            4 => StatusCode::RtErr,
            code => StatusCode::Other(code as u8),
        },
        src: Epid(first.field(15, 0) as u16),
        cap_bytes: first.field(63, 24),
        cap_packets: second.field(23, 0) as u32,
        got_packets: second.field(63, 24),
        got_bytes,
        info: fourth.field(63, 16),
        buffer: fourth.field(15, 0) as u16,
    }
}

/// A sender in this state. Opening and Resyncing have sent their command; what is outstanding in the
/// other states is one packet of 24 bytes, and a PING of it was sent if `pinging`.
fn sender_in(rt: &impl Abort, state: OutState, pinging: bool, policy: Policy) -> OutEnd {
    let mut out = sender(0, 0, policy);
    let mut into = receiver(0, 0);
    if state == OutState::Opening {
        command(rt, &mut out, CmdOp::Init);
        return out;
    }
    ask(rt, &mut out, &mut into, CmdOp::Init);
    send(rt, &mut out);
    if state != OutState::Running {
        out.status(&status(StatusCode::SeqErr, 0));
    }
    if state == OutState::Resyncing {
        command(rt, &mut out, CmdOp::Resync);
    }
    if pinging {
        command(rt, &mut out, CmdOp::Ping);
    }
    out
}

/// A status with this code that tells of this many packets of 24 bytes.
fn status(code: StatusCode, packets: u8) -> Status {
    Status {
        code,
        src: Epid(2),
        cap_bytes: 96,
        cap_packets: 4,
        got_packets: packets as u64,
        got_bytes: packets as u64 * 24,
        info: 0,
        buffer: 0,
    }
}

/// The state to which a status leads, row by row: the state before, whether a PING waits for an answer,
/// the code, whether something stays outstanding, and the state behind it.
const LEADS: [(OutState, bool, StatusCode, bool, OutState); 14] = [
    (Opening, false, Okay, false, Running),
    (Opening, false, SeqErr, false, Opening),
    (Running, false, Okay, false, Running),
    (Running, false, Okay, true, Running),
    (Running, true, Okay, false, Running),
    (Running, true, Okay, true, Resyncing),
    (Running, false, SeqErr, false, Resyncing),
    (Running, false, SeqErr, true, Resyncing),
    (Running, true, SeqErr, false, Resyncing),
    (Running, true, SeqErr, true, Resyncing),
    (Resyncing, false, Okay, false, Running),
    (Resyncing, false, Okay, true, Running),
    (Resyncing, false, SeqErr, false, Resyncing),
    (Resyncing, false, SeqErr, true, Resyncing),
];

#[test]
fn each_status_leads_where_the_drawing_says(rt: HostRuntime) {
    for (state, pinging, code, left, leads) in LEADS {
        for policy in [Policy::Auto, Policy::Off] {
            if state == OutState::Resyncing && policy == Policy::Off {
                continue;
            }
            let mut out = sender_in(&rt, state, pinging, policy);
            let commanded = out.commanded();
            out.status(&status(code, if left { 0 } else { 1 }));
            let leads = match (leads, policy) {
                (OutState::Resyncing, Policy::Off) => OutState::Halted,
                _ => leads,
            };
            assert_eq!(rt; out.state(), leads);
            assert_eq!(rt; out.is_pinging(), false);
            assert_eq!(rt; out.commanded(), commanded && state == leads);
        }
    }
}

#[test]
fn other_codes_set_the_counts_and_change_no_state(rt: HostRuntime) {
    for code in [
        StatusCode::CmdErr,
        StatusCode::DataErr,
        StatusCode::RtErr,
        StatusCode::Other(9),
    ] {
        for (state, policy) in [
            (OutState::Opening, Policy::Auto),
            (OutState::Running, Policy::Auto),
            (OutState::Halted, Policy::Off),
            (OutState::Resyncing, Policy::Auto),
        ] {
            let mut out = sender_in(&rt, state, state == OutState::Running, policy);
            let sent = if state == OutState::Opening { 0 } else { 1 };
            let commanded = out.commanded();
            out.status(&status(code, sent));
            assert_eq!(rt; (out.state(), out.is_pinging()), (state, false));
            assert_eq!(rt; (out.commanded(), out.covered()), (commanded, true));
        }
    }
}

#[test]
fn nothing_leads_out_of_halted(rt: HostRuntime) {
    for code in [StatusCode::Okay, StatusCode::SeqErr] {
        for told in [0, 1] {
            let mut out = sender_in(&rt, OutState::Halted, false, Policy::Off);
            out.status(&status(code, told));
            assert_eq!(rt; (out.state(), out.covered()), (OutState::Halted, told == 1));
            for op in [CmdOp::Init, CmdOp::Ping, CmdOp::Resync] {
                assert_eq!(rt; out.may_command(op), false);
            }
        }
    }
}

/// Takes packets of 24 bytes one by one, and returns how many it takes until a status is due.
fn taken_until_due(rt: &impl Abort, into: &mut InEnd, first: u16) -> u16 {
    for n in 0..100u16 {
        if into.due() {
            return n;
        }
        arrive(rt, into, first.wrapping_add(n));
        take(rt, into, 1);
    }
    100
}

#[test]
fn an_init_sets_how_much_taken_makes_a_status_due(rt: HostRuntime) {
    let mut into = receiver(0, 0);
    for (packets, bytes, first, taken) in [(3, 1000, 0, 3), (1000, 48, 3, 2)] {
        into.command(&Command {
            op: CmdOp::Init,
            op_data: 0,
            src: Epid(1),
            packets,
            bytes,
        });
        report(&rt, &mut into);
        assert_eq!(rt; taken_until_due(&rt, &mut into, first), taken);
    }
}

#[test]
fn a_status_has_each_field(rt: HostRuntime) {
    let mut into = receiver(7, 1000);
    for seq in [7, 8, 11] {
        arrive(&rt, &mut into, seq);
    }
    take(&rt, &mut into, 1);
    let status = report(&rt, &mut into);
    assert!(rt;
        status
            == Status {
                code: StatusCode::SeqErr,
                src: Epid(2),
                cap_bytes: 96,
                cap_packets: 4,
                got_packets: 8,
                got_bytes: 1024,
                info: 9 * 65536 + 11,
                buffer: 0,
            }
    );
}

#[test]
fn no_message_makes_a_call_fault(rt: HostRuntime) {
    for policy in [Policy::Auto, Policy::Off] {
        let mut out = sender(1, 1, policy);
        let mut into = receiver(1, 1);
        let mut x = 1;
        for turn in 0..1000u32 {
            out.status(&any_status(x));
            for op in [CmdOp::Init, CmdOp::Ping, CmdOp::Resync] {
                if out.may_command(op) {
                    out.command(op);
                }
            }
            if out.may_send(24) {
                out.sent(24);
            }
            x = next(next(next(next(x))));
            into.command(&any_command(x));
            if into.due() {
                into.report();
            }
            let seq = (turn % 65536) as u16;
            if into.finds_room(seq, 24) {
                into.arrive(seq, 24);
            }
            let buffered = into.buffered();
            if buffered.packets >= 1 && buffered.bytes >= 24 {
                into.taken(1, 24);
            }
            x = next(next(x));
        }
    }
}

#[test]
fn faults_are_copied(rt: HostRuntime) -> Result<(), Fail> {
    let mut faults = Faults::new(rt.alloc());
    faults.push(Fault::Samples(0, 2))?;
    faults.push(Fault::Answer(1))?;
    assert_eq!(rt; faults.copy()?, faults);
    Ok(())
}
