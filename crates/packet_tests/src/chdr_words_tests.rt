use chdr_words::{
    Cfg, CmdOp, Command, Control, CtrlOp, CtrlStatus, Epid, Management, MgmtOp, NodeInfo, NodeKind,
    Operation, Status, StatusCode, Words15, decode_command, decode_control, decode_management,
    decode_status, encode_command, encode_control, encode_management, encode_status, wire_size,
};
use rf_base::{Copyable, Items};
use std::test::Fail;

#[test]
fn lengths_are_rounded_up_to_words(rt: HostRuntime) {
    for (length, size) in [(0, 0), (8, 8), (13, 16), (16, 16), (65535, 65536)] {
        assert_eq!(rt; wire_size(length), size, "at {length}");
    }
}

#[test]
fn words_and_lists_are_copied(rt: HostRuntime) -> Result<(), Fail> {
    let mut words = Words15::new();
    words.push(17);
    words.push(34);
    assert_eq!(rt; words.copy(), words);
    let mut epids = Items::new(rt.alloc());
    epids.push(Epid(5))?;
    assert_eq!(rt; epids.copy()?, epids);
    Ok(())
}

#[test]
fn fifteen_words_find_room(rt: HostRuntime) {
    let mut words = Words15::new();
    for k in 0..20 {
        if words.len() < 15 {
            words.push(k);
        }
    }
    let want = [0, 1, 2, 3, 4, 5, 6, 7, 8, 9, 10, 11, 12, 13, 14];
    assert_eq!(rt; words.as_slice(), want.as_slice());
}

#[test]
fn a_status_is_written_and_read(rt: HostRuntime) {
    let bytes = [
        2, 0, 2, 0, 16, 0, 0, 0, // capacity in bytes, code, source
        16, 0, 0, 3, 0, 0, 0, 0, // transferred packets, capacity in packets
        48, 0, 0, 0, 0, 0, 0, 0, // transferred bytes
        5, 0, 3, 0, 2, 0, 0, 0, // information, buffer
    ];
    let status = Status {
        code: StatusCode::SeqErr,
        src: Epid(2),
        cap_bytes: 4096,
        cap_packets: 16,
        got_packets: 3,
        got_bytes: 48,
        info: 0x2_0003,
        buffer: 5,
    };
    assert_eq!(rt; encode_status(&status), bytes);
    assert_eq!(rt; decode_status(&bytes), Ok(status));
}

#[test]
fn a_command_is_written_and_read(rt: HostRuntime) {
    let bytes = [
        1, 0, 0x52, 6, 0, 0, 0, 0, // packets, data and operation, source
        96, 0, 0, 0, 0, 0, 0, 0, // bytes
    ];
    let command = Command {
        op: CmdOp::Resync,
        op_data: 5,
        src: Epid(1),
        packets: 6,
        bytes: 96,
    };
    assert_eq!(rt; encode_command(&command), bytes);
    assert_eq!(rt; decode_command(&bytes), Ok(command));
}

#[test]
fn a_timed_control_is_written_and_read(rt: HostRuntime) {
    let bytes = [
        0, 0x1c, 0x10, 0xc3, 1, 0, 0, 0, // ports, number of words, number, flags, source
        0xe8, 3, 0, 0, 0, 0, 0, 0, // time
        16, 0, 0xf0, 0x4a, // address, enables, operation, status
        17, 0, 0, 0, // the word
    ];
    let mut words = Words15::new();
    words.push(17);
    let control = Control {
        src: Epid(1),
        ack: true,
        time: Some(1000),
        seq: 3,
        src_port: 7,
        dst_port: 0,
        status: CtrlStatus::CmdErr,
        op: CtrlOp::User(10),
        enables: 15,
        addr: 16,
        words,
    };
    let mut out = [0; 80];
    assert_eq!(rt; encode_control(&control, &mut out), 24);
    assert_eq!(rt; &out[..24], bytes.as_slice());
    assert_eq!(rt; decode_control(&bytes), Ok(control));
}

#[test]
fn a_management_payload_is_written_and_read(rt: HostRuntime) -> Result<(), Fail> {
    let bytes = [
        1, 0, 2, 0, 0, 0, 0, 1, // source, two hops, version
        1, 1, 0, 0, 0, 0, 0, 0, // ADVERTISE, one pending
        0, 2, 2, 1, 0, 0, 0, 0, // SELECT_DEST to port 258, none pending
        0, 0, 0, 0, 0, 0, 0, 0, // NOP, none pending
    ];
    let mut first = Items::new(rt.alloc());
    first.push(MgmtOp {
        code: 1,
        payload: 0,
    })?;
    first.push(MgmtOp {
        code: 2,
        payload: 258,
    })?;
    let mut last = Items::new(rt.alloc());
    last.push(MgmtOp {
        code: 0,
        payload: 0,
    })?;
    let mut hops = Items::new(rt.alloc());
    hops.push(first)?;
    hops.push(last)?;
    let management = Management {
        version: 0x0100,
        width: 0,
        src: Epid(1),
        hops,
    };
    let written = encode_management(rt.alloc(), &management)?;
    assert_eq!(rt; written.as_slice(), bytes.as_slice());
    assert_eq!(rt; decode_management(rt.alloc(), &bytes), Ok(management));
    Ok(())
}

#[test]
fn payloads_of_operations_are_packed_and_unpacked(rt: HostRuntime) {
    let info = NodeInfo {
        device: 1,
        kind: NodeKind::Crossbar,
        instance: 1,
        extended: 2,
    };
    assert_eq!(rt; info.pack(), 0x8011_0001);
    assert_eq!(rt; NodeInfo::unpack(0x8011_0001), info);
    let cfg = Cfg {
        addr: 5,
        value: 0xffff_fffe,
    };
    assert_eq!(rt; cfg.pack(), 0xffff_fffe_0005);
    assert_eq!(rt; Cfg::unpack(0xffff_fffe_0005), cfg);
    let op = Operation::InfoResp(info).spelled();
    assert_eq!(rt; (op.code, op.payload), (5, 0x8011_0001));
    assert_eq!(rt; Operation::of(op), Operation::InfoResp(info));
}
