use chdr_packets::{Body, Packet, PacketFault, decode, encode, fits};
use chdr_words::{
    CmdOp, Command, Control, CtrlOp, CtrlStatus, Epid, Management, MgmtOp, MsgFault, Status,
    StatusCode, Words15,
};
use rf_base::{Copyable, Items, Memory};
use std::alloc::Global;
use std::test::Fail;

const STATUS: Status = Status {
    code: StatusCode::Okay,
    src: Epid(2),
    cap_bytes: 4096,
    cap_packets: 16,
    got_packets: 3,
    got_bytes: 48,
    info: 0,
    buffer: 0,
};

const COMMAND: Command = Command {
    op: CmdOp::Resync,
    op_data: 0,
    src: Epid(1),
    packets: 6,
    bytes: 96,
};

fn control() -> Control {
    let mut words = Words15::new();
    words.push(17);
    words.push(34);
    Control {
        src: Epid(1),
        ack: false,
        time: None,
        seq: 3,
        src_port: 0,
        dst_port: 7,
        status: CtrlStatus::Okay,
        op: CtrlOp::BlockWrite,
        enables: 15,
        addr: 16,
        words,
    }
}

/// One hop of so many NOP operations.
fn management(alloc: Global, ops: usize) -> Result<Management, Memory> {
    let mut hop = Items::new(alloc);
    for _ in 0..ops {
        hop.push(MgmtOp {
            code: 0,
            payload: 0,
        })?;
    }
    let mut hops = Items::new(alloc);
    hops.push(hop)?;
    Ok(Management {
        version: 0x0100,
        width: 0,
        src: Epid(1),
        hops,
    })
}

fn samples(alloc: Global, bytes: usize) -> Result<Body, Memory> {
    let mut payload = Items::new(alloc);
    for _ in 0..bytes {
        payload.push(0)?;
    }
    Ok(Body::Samples {
        time: None,
        payload,
    })
}

fn packet(alloc: Global, dst: u16, body: Body) -> Packet {
    Packet {
        vc: 0,
        eob: false,
        eov: false,
        seq: 0,
        dst: Epid(dst),
        mdata: Items::new(alloc),
        body,
    }
}

/// Whether the packet is encoded as these bytes, and read back from them.
fn is_spelled(alloc: Global, packet: Packet, bytes: &[u8]) -> Result<bool, Fail> {
    if !fits(&packet) {
        return Ok(false);
    }
    let made = encode(alloc, &packet)?;
    let found = decode(alloc, bytes)?;
    Ok(made.as_slice() == bytes && found == Some((packet, bytes.len())))
}

#[test]
fn a_copy_is_equal(rt: HostRuntime) -> Result<(), Fail> {
    let mut packet = packet(rt.alloc(), 2, samples(rt.alloc(), 3)?);
    packet.eob = true;
    packet.seq = 3;
    assert_eq!(rt; packet.copy()?, packet);
    let body = Body::Control(control());
    assert_eq!(rt; body.copy()?, body);
    let body = Body::Management(management(rt.alloc(), 2)?);
    assert_eq!(rt; body.copy()?, body);
    Ok(())
}

#[test]
fn data_is_spelled(rt: HostRuntime) -> Result<(), Fail> {
    let bytes = [
        0x02, 0x00, 0x10, 0x00, 0x00, 0x00, 0xc0, 0x00, // header, Length 16
        0x00, 0x00, 0x00, 0x00, 0x00, 0x00, 0x00, 0x00, // payload
    ];
    let packet = packet(rt.alloc(), 2, samples(rt.alloc(), 8)?);
    assert!(rt; is_spelled(rt.alloc(), packet, &bytes)?);
    Ok(())
}

#[test]
fn a_status_is_spelled(rt: HostRuntime) -> Result<(), Fail> {
    let bytes = [
        0x01, 0x00, 0x28, 0x00, 0x00, 0x00, 0x20, 0x00, // header, Length 40
        0x02, 0x00, 0x00, 0x00, 0x10, 0x00, 0x00, 0x00, // capacity in bytes, code, source
        0x10, 0x00, 0x00, 0x03, 0x00, 0x00, 0x00, 0x00, // packets: transferred, capacity
        0x30, 0x00, 0x00, 0x00, 0x00, 0x00, 0x00, 0x00, // transferred bytes
        0x00, 0x00, 0x00, 0x00, 0x00, 0x00, 0x00, 0x00, // information, buffer
    ];
    let packet = packet(rt.alloc(), 1, Body::Status(STATUS));
    assert!(rt; is_spelled(rt.alloc(), packet, &bytes)?);
    Ok(())
}

#[test]
fn a_command_is_spelled(rt: HostRuntime) -> Result<(), Fail> {
    let bytes = [
        0x02, 0x00, 0x18, 0x00, 0x00, 0x00, 0x40, 0x00, // header, Length 24
        0x01, 0x00, 0x02, 0x06, 0x00, 0x00, 0x00, 0x00, // packets, data, operation, source
        0x60, 0x00, 0x00, 0x00, 0x00, 0x00, 0x00, 0x00, // bytes
    ];
    let packet = packet(rt.alloc(), 2, Body::Command(COMMAND));
    assert!(rt; is_spelled(rt.alloc(), packet, &bytes)?);
    Ok(())
}

#[test]
fn a_control_is_spelled_at_its_rounded_size(rt: HostRuntime) -> Result<(), Fail> {
    let bytes = [
        0x05, 0x00, 0x20, 0x00, 0x00, 0x00, 0x80, 0x00, // header, Length 32
        0x07, 0x00, 0x20, 0x03, 0x01, 0x00, 0x00, 0x00, // source, number, words, ports
        0x10, 0x00, 0xf0, 0x04, // operation
        0x11, 0x00, 0x00, 0x00, 0x22, 0x00, 0x00, 0x00, // words
        0x00, 0x00, 0x00, 0x00, // up to whole words
    ];
    let packet = packet(rt.alloc(), 5, Body::Control(control()));
    assert!(rt; is_spelled(rt.alloc(), packet, &bytes)?);
    Ok(())
}

#[test]
fn a_management_packet_is_spelled(rt: HostRuntime) -> Result<(), Fail> {
    let bytes = [
        0x00, 0x00, 0x20, 0x00, 0x00, 0x00, 0x00, 0x00, // header, Length 32
        0x01, 0x00, 0x01, 0x00, 0x00, 0x00, 0x00, 0x01, // version, hops, source
        0x01, 0x00, 0x00, 0x00, 0x00, 0x00, 0x00, 0x00, // NOP, one pending
        0x00, 0x00, 0x00, 0x00, 0x00, 0x00, 0x00, 0x00, // NOP, none pending
    ];
    let body = Body::Management(management(rt.alloc(), 2)?);
    assert!(rt; is_spelled(rt.alloc(), packet(rt.alloc(), 0, body), &bytes)?);
    Ok(())
}

#[test]
fn pending_counts_that_do_not_run_down_are_refused(rt: HostRuntime) {
    let bytes = [
        0x00, 0x00, 0x28, 0x00, 0x00, 0x00, 0x00, 0x00, // header, Length 40
        0x01, 0x00, 0x01, 0x00, 0x00, 0x00, 0x00, 0x01, // version, hops, source
        0x01, 0x00, 0x00, 0x00, 0x00, 0x00, 0x00, 0x00, // NOP, one pending
        0x01, 0x00, 0x00, 0x00, 0x00, 0x00, 0x00, 0x00, // NOP, one pending
        0x00, 0x00, 0x00, 0x00, 0x00, 0x00, 0x00, 0x00, // NOP, none pending
    ];
    let fault = PacketFault::Message(MsgFault::BadManagement);
    assert_eq!(rt; decode(rt.alloc(), &bytes).err(), Some(fault));
}

fn body_fits(alloc: Global, body: Body) -> bool {
    fits(&packet(alloc, 2, body))
}

#[test]
fn length_and_metadata_have_an_end(rt: HostRuntime) -> Result<(), Fail> {
    assert!(rt; body_fits(rt.alloc(), samples(rt.alloc(), 65527)?));
    assert!(rt; !body_fits(rt.alloc(), samples(rt.alloc(), 65528)?));
    let mut packet = packet(rt.alloc(), 2, Body::Command(COMMAND));
    for _ in 0..31 {
        packet.mdata.push(0)?;
    }
    assert!(rt; fits(&packet));
    packet.mdata.push(0)?;
    assert!(rt; !fits(&packet));
    Ok(())
}

#[test]
fn a_channel_past_its_bits_does_not_fit(rt: HostRuntime) {
    let mut packet = packet(rt.alloc(), 2, Body::Status(STATUS));
    assert!(rt; fits(&packet));
    packet.vc = 64;
    assert!(rt; !fits(&packet));
}

#[test]
fn a_status_past_its_bits_does_not_fit(rt: HostRuntime) {
    for status in [
        Status {
            code: StatusCode::Other(4),
            ..STATUS
        },
        Status {
            code: StatusCode::Other(16),
            ..STATUS
        },
        Status {
            cap_bytes: 1 << 40,
            ..STATUS
        },
        Status {
            cap_packets: 1 << 24,
            ..STATUS
        },
        Status {
            got_packets: 1 << 40,
            ..STATUS
        },
        Status {
            info: 1 << 48,
            ..STATUS
        },
    ] {
        assert!(rt; !body_fits(rt.alloc(), Body::Status(status)));
    }
}

#[test]
fn a_command_past_its_bits_does_not_fit(rt: HostRuntime) {
    for command in [
        Command {
            op: CmdOp::Other(2),
            ..COMMAND
        },
        Command {
            op: CmdOp::Other(16),
            ..COMMAND
        },
        Command {
            op_data: 16,
            ..COMMAND
        },
        Command {
            packets: 1 << 40,
            ..COMMAND
        },
    ] {
        assert!(rt; !body_fits(rt.alloc(), Body::Command(command)));
    }
}

#[test]
fn a_control_past_its_bits_does_not_fit(rt: HostRuntime) {
    for control in [
        Control {
            seq: 64,
            ..control()
        },
        Control {
            src_port: 1024,
            ..control()
        },
        Control {
            dst_port: 1024,
            ..control()
        },
        Control {
            op: CtrlOp::Other(6),
            ..control()
        },
        Control {
            op: CtrlOp::Other(10),
            ..control()
        },
        Control {
            op: CtrlOp::User(9),
            ..control()
        },
        Control {
            op: CtrlOp::User(16),
            ..control()
        },
        Control {
            enables: 16,
            ..control()
        },
        Control {
            addr: 1 << 20,
            ..control()
        },
    ] {
        assert!(rt; !body_fits(rt.alloc(), Body::Control(control)));
    }
}

#[test]
fn hops_have_1_to_256_operations(rt: HostRuntime) -> Result<(), Fail> {
    for ops in [1, 256] {
        let body = Body::Management(management(rt.alloc(), ops)?);
        assert!(rt; body_fits(rt.alloc(), body));
    }
    for ops in [0, 257] {
        let body = Body::Management(management(rt.alloc(), ops)?);
        assert!(rt; !body_fits(rt.alloc(), body));
    }
    let wide = Management {
        width: 8,
        ..management(rt.alloc(), 1)?
    };
    assert!(rt; !body_fits(rt.alloc(), Body::Management(wide)));
    Ok(())
}
