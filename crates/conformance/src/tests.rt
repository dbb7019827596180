use crate::{
    DATA_PACKET, INFORMATION_RESPONSE, LONG_CONTROL_PACKET, MISCOUNTED_HOP, RESYNC_COMMAND,
    SEQUENCE_ERROR_INFO, SHORT_CONTROL_PACKET, STATUS_PACKET,
};
use chdr_packets::{Body, Packet, PacketFault, decode, encode, fits};
use chdr_stream::{Decoder, FinishFault};
use chdr_words::{
    CmdOp, Command, Control, CtrlOp, CtrlStatus, Epid, Management, MgmtOp, MsgFault, NodeInfo,
    NodeKind, Status, StatusCode, Words15, encode_management, encode_status,
};
use rf_base::Items;
use std::alloc::Global;
use std::test::Fail;

/// The first packet of its stream, without metadata.
fn packet(alloc: Global, dst: u16, body: Body) -> Packet {
    Packet {
        vc: 0,
        eob: false,
        eov: false,
        seq: 0,
        dst: Epid(dst),
        mdata: Items::new(alloc),
        body,
    }
}

/// The one packet that the bytes are.
fn packet_of(alloc: Global, bytes: &[u8]) -> Result<Option<Packet>, Fail> {
    match decode(alloc, bytes) {
        Ok(Some((packet, size))) => Ok((size == bytes.len()).then_some(packet)),
        Ok(None) => Ok(None),
        Err(PacketFault::ReservedType | PacketFault::BadLength | PacketFault::Message(_)) => Ok(
            None,
        ),
        Err(PacketFault::Memory) => Err("memory".into()),
    }
}

/// Whether the packet is written as these bytes.
fn is_written(alloc: Global, packet: &Packet, bytes: &[u8]) -> Result<bool, Fail> {
    if !fits(packet) {
        return Ok(false);
    }
    Ok(encode(alloc, packet)?.as_slice() == bytes)
}

/// Whether the packet can be written, and is read from what is written.
fn comes_back(alloc: Global, packet: &Packet) -> Result<bool, Fail> {
    if !fits(packet) {
        return Ok(false);
    }
    let written = encode(alloc, packet)?;
    Ok(packet_of(alloc, written.as_slice())?.as_ref() == Some(packet))
}

#[test]
fn a_data_packet_is_read_and_written(rt: HostRuntime) -> Result<(), Fail> {
    let payload = Items::from_vec(Vec::from_slice(rt.alloc(), &[0; 8])?);
    let want = packet(
        rt.alloc(),
        2,
        Body::Samples {
            time: None,
            payload,
        },
    );
    assert_eq!(rt; packet_of(rt.alloc(), &DATA_PACKET)?.as_ref(), Some(&want));
    assert!(rt; is_written(rt.alloc(), &want, &DATA_PACKET)?);
    Ok(())
}

#[test]
fn a_status_is_read_and_written(rt: HostRuntime) -> Result<(), Fail> {
    let status = Status {
        code: StatusCode::Okay,
        src: Epid(2),
        cap_bytes: 4096,
        cap_packets: 16,
        got_packets: 3,
        got_bytes: 48,
        info: 0,
        buffer: 0,
    };
    let want = packet(rt.alloc(), 1, Body::Status(status));
    assert_eq!(rt;
        packet_of(rt.alloc(), &STATUS_PACKET)?.as_ref(),
        Some(&want)
    );
    assert!(rt; is_written(rt.alloc(), &want, &STATUS_PACKET)?);
    Ok(())
}

/// The request that both control packets spell.
fn request() -> Control {
    let mut words = Words15::new();
    words.push(17);
    words.push(34);
    Control {
        src: Epid(1),
        ack: false,
        time: None,
        seq: 3,
        src_port: 0,
        dst_port: 7,
        status: CtrlStatus::Okay,
        op: CtrlOp::BlockWrite,
        enables: 15,
        addr: 16,
        words,
    }
}

#[test]
fn a_control_packet_of_either_size_is_written_at_the_rounded_size(
    rt: HostRuntime,
) -> Result<(), Fail> {
    let want = packet(rt.alloc(), 5, Body::Control(request()));
    assert_eq!(rt;
        packet_of(rt.alloc(), &SHORT_CONTROL_PACKET)?.as_ref(),
        Some(&want)
    );
    assert_eq!(rt;
        packet_of(rt.alloc(), &LONG_CONTROL_PACKET)?.as_ref(),
        Some(&want)
    );
    assert!(rt; is_written(rt.alloc(), &want, &LONG_CONTROL_PACKET)?);
    Ok(())
}

#[test]
fn a_resync_is_read_and_written(rt: HostRuntime) -> Result<(), Fail> {
    let command = Command {
        op: CmdOp::Resync,
        op_data: 0,
        src: Epid(1),
        packets: 6,
        bytes: 96,
    };
    let want = packet(rt.alloc(), 2, Body::Command(command));
    assert_eq!(rt;
        packet_of(rt.alloc(), &RESYNC_COMMAND)?.as_ref(),
        Some(&want)
    );
    assert!(rt; is_written(rt.alloc(), &want, &RESYNC_COMMAND)?);
    Ok(())
}

#[test]
fn an_information_response_is_written(rt: HostRuntime) -> Result<(), Fail> {
    let info = NodeInfo {
        device: 1,
        kind: NodeKind::Crossbar,
        instance: 1,
        extended: 2,
    };
    let mut hop = Items::new(rt.alloc());
    hop.push(MgmtOp {
        code: 5,
        payload: info.pack(),
    })?;
    let mut hops = Items::new(rt.alloc());
    hops.push(hop)?;
    let management = Management {
        version: 0x0100,
        width: 0,
        src: Epid(1),
        hops,
    };
    let written = encode_management(rt.alloc(), &management)?;
    assert_eq!(rt;
        written.as_slice().get(8..16),
        Some(INFORMATION_RESPONSE.as_slice())
    );
    Ok(())
}

#[test]
fn a_miscounted_hop_is_refused(rt: HostRuntime) {
    let fault = PacketFault::Message(MsgFault::BadManagement);
    assert_eq!(rt; decode(rt.alloc(), &MISCOUNTED_HOP).err(), Some(fault));
}

#[test]
fn a_sequence_error_tells_both_numbers(rt: HostRuntime) {
    let status = Status {
        code: StatusCode::SeqErr,
        src: Epid(2),
        cap_bytes: 0,
        cap_packets: 0,
        got_packets: 0,
        got_bytes: 0,
        info: 2 * 65536 + 3,
        buffer: 0,
    };
    assert_eq!(rt;
        &encode_status(&status)[24..],
        SEQUENCE_ERROR_INFO.as_slice()
    );
}

/// Whether the bytes begin with a canonical packet.
fn is_canonical(alloc: Global, bytes: &[u8]) -> Result<bool, Fail> {
    let mut decoder = Decoder::new(alloc);
    decoder.feed(bytes)?;
    let passed = decoder.pass()?.ok_or("a packet")?;
    Ok(passed.canonical)
}

#[test]
fn only_the_rounded_control_size_is_canonical(rt: HostRuntime) -> Result<(), Fail> {
    assert!(rt; !is_canonical(rt.alloc(), &SHORT_CONTROL_PACKET)?);
    assert!(rt; is_canonical(rt.alloc(), &LONG_CONTROL_PACKET)?);
    Ok(())
}

/// What the end of a stream tells whose bytes give no packet; `None` where they give one.
fn end_of(alloc: Global, bytes: &[u8]) -> Result<Option<Result<(), FinishFault>>, Fail> {
    let mut decoder = Decoder::new(alloc);
    decoder.feed(bytes)?;
    match decoder.next()? {
        None => Ok(Some(decoder.finish())),
        Some(_) => Ok(None),
    }
}

#[test]
fn a_packet_cut_anywhere_is_truncated(rt: HostRuntime) -> Result<(), Fail> {
    let vectors = [
        DATA_PACKET.as_slice(),
        STATUS_PACKET.as_slice(),
        SHORT_CONTROL_PACKET.as_slice(),
        LONG_CONTROL_PACKET.as_slice(),
        MISCOUNTED_HOP.as_slice(),
        RESYNC_COMMAND.as_slice(),
    ];
    assert_eq!(rt; end_of(rt.alloc(), &[])?, Some(Ok(())));
    for vector in vectors {
        for cut in 1..vector.len() {
            let front = &vector[..cut];
            assert!(rt; matches!(decode(rt.alloc(), front), Ok(None)), "at {cut}");
            let truncated = FinishFault::Truncated { at: 0 };
            assert_eq!(rt;
                end_of(rt.alloc(), front)?,
                Some(Err(truncated)),
                "at {cut}"
            );
        }
    }
    Ok(())
}

/// The bytes with one bit turned.
fn turned(alloc: Global, bytes: &[u8], bit: usize) -> Result<Vec<u8>, Fail> {
    let mut turned = Vec::from_slice(alloc, bytes)?;
    if let Some(byte) = turned.get_mut(bit / 8) {
        *byte ^= 1 << (bit % 8);
    }
    Ok(turned)
}

#[test]
fn a_turned_bit_gives_no_packet_or_one_that_comes_back(rt: HostRuntime) -> Result<(), Fail> {
    // a 1 for each bit of the header that can be turned and leaves a packet
    let cases = [
        (DATA_PACKET.as_slice(), 0xff21_ffff_0000_ffff),
        (STATUS_PACKET.as_slice(), 0xff00_ffff_0000_ffff),
        (SHORT_CONTROL_PACKET.as_slice(), 0xff40_ffff_0000_ffff),
        (LONG_CONTROL_PACKET.as_slice(), 0xff40_ffff_0000_ffff),
        (MISCOUNTED_HOP.as_slice(), 0x0020_0000_0000_0000),
        (RESYNC_COMMAND.as_slice(), 0xff80_ffff_0000_ffffu64),
    ];
    for (vector, want) in cases {
        let mut good = 0;
        for bit in 0..64 {
            let bytes = turned(rt.alloc(), vector, bit)?;
            if let Some(packet) = packet_of(rt.alloc(), &bytes)? {
                assert!(rt; comes_back(rt.alloc(), &packet)?, "at {bit}");
                good |= 1 << bit;
            }
        }
        assert_eq!(rt; good, want);
    }
    Ok(())
}
