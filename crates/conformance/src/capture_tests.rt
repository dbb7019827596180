//! Spelled packets as captures, listed and checked.
use crate::{
    DATA_PACKET, LONG_CONTROL_PACKET, MISCOUNTED_HOP, RESYNC_COMMAND, SHORT_CONTROL_PACKET,
    STATUS_PACKET,
};
use capture_tool::{check_capture, show_capture};
use rf_base::{Items, Memory};
use rf_outside::{SureSink, SureSource};
use std::alloc::Global;
use std::process::Abort;
use std::test::Fail;

fn joined(alloc: Global, parts: &[&[u8]]) -> Result<Vec<u8>, Memory> {
    let mut text = Vec::new(alloc);
    for part in parts {
        text.extend_from_slice(part)?;
    }
    Ok(text)
}

/// The status of show on these bytes, and what it wrote.
fn shown(alloc: Global, bytes: &[u8]) -> Result<(u8, SureSink), Memory> {
    let mut src = SureSource::new(Items::from_vec(Vec::from_slice(alloc, bytes)?));
    let mut out = SureSink::new(alloc, 4096)?;
    let status = show_capture(alloc, &mut src, &mut out);
    Ok((status, out))
}

fn checked(alloc: Global, bytes: &[u8]) -> Result<(u8, SureSink), Memory> {
    let mut src = SureSource::new(Items::from_vec(Vec::from_slice(alloc, bytes)?));
    let mut out = SureSink::new(alloc, 100)?;
    let status = check_capture(alloc, &mut src, &mut out);
    Ok((status, out))
}

/// The bytes with one bit turned.
fn turned(alloc: Global, bytes: &[u8], bit: usize) -> Result<Vec<u8>, Memory> {
    let mut turned = Vec::from_slice(alloc, bytes)?;
    if let Some(byte) = turned.get_mut(bit / 8) {
        *byte ^= 1 << (bit % 8);
    }
    Ok(turned)
}

/// A packet of each sort, the control packet at both sizes; the last one is refused.
const PACKETS: [&[u8]; 6] = [
    &DATA_PACKET,
    &STATUS_PACKET,
    &SHORT_CONTROL_PACKET,
    &LONG_CONTROL_PACKET,
    &RESYNC_COMMAND,
    &MISCOUNTED_HOP,
];

#[test]
fn control_at_both_sizes_is_listed_and_checked(rt: HostRuntime) -> Result<(), Fail> {
    let listing: &[u8] = b"0 control vc 0 eob 0 eov 0 seq 0 dst 5 meta 0 req src 1 seq 3 \
ports 0>7 time - op BLOCK_WRITE status OKAY enables 15 addr 16 words 17 34\npackets 1\n";
    let rows: [(&[u8], &[u8]); 2] = [
        (&SHORT_CONTROL_PACKET, b"packets 1 canonical 0\n"),
        (&LONG_CONTROL_PACKET, b"packets 1 canonical 1\n"),
    ];
    for (bytes, line) in rows {
        let (status, out) = shown(rt.alloc(), bytes)?;
        assert_eq!(rt; out.kept(), listing);
        assert_eq!(rt; status, 0);
        let (status, out) = checked(rt.alloc(), bytes)?;
        assert_eq!(rt; out.kept(), line);
        assert_eq!(rt; status, 0);
    }
    Ok(())
}

#[test]
fn a_miscounted_hop_is_a_fault_of_both(rt: HostRuntime) -> Result<(), Fail> {
    let fault: &[u8] = b"fault BadManagement at 0\n";
    let (status, out) = shown(rt.alloc(), &MISCOUNTED_HOP)?;
    assert_eq!(rt; out.kept(), fault);
    assert_eq!(rt; status, 7);
    let (status, out) = checked(rt.alloc(), &MISCOUNTED_HOP)?;
    assert_eq!(rt; out.kept(), fault);
    assert_eq!(rt; status, 7);
    Ok(())
}

#[test]
fn show_and_check_agree_on_a_turned_bit(rt: HostRuntime) -> Result<(), Fail> {
    for packet in PACKETS {
        for bit in 0..64 {
            let bytes = turned(rt.alloc(), packet, bit)?;
            let (status, _) = shown(rt.alloc(), bytes.as_slice())?;
            let (other, _) = checked(rt.alloc(), bytes.as_slice())?;
            assert!(rt; status == 0 || status == 7, "at {bit}");
            assert_eq!(rt; other, status, "at {bit}");
        }
    }
    Ok(())
}

/// Shows the packet with each code at a place, and holds the names against the listing.
fn names_hold(
    rt: &impl Abort,
    alloc: Global,
    packet: &[u8],
    place: usize,
    codes: &[(u8, &[u8])],
    around: (&[u8], &[u8]),
) -> Result<(), Fail> {
    for (code, name) in codes {
        let mut bytes = Vec::from_slice(alloc, packet)?;
        assert!(rt; place < bytes.len());
        bytes[place] = *code;
        let (status, out) = shown(alloc, bytes.as_slice())?;
        let line = joined(alloc, &[around.0, name, around.1, b"\npackets 1\n"])?;
        assert_eq!(rt; out.kept(), line.as_slice());
        assert_eq!(rt; status, 0);
    }
    Ok(())
}

#[test]
fn status_codes_have_names(rt: HostRuntime) -> Result<(), Fail> {
    let codes: [(u8, &[u8]); 16] = [
        (0, b"OKAY"),
        (1, b"CMDERR"),
        (2, b"SEQERR"),
        (3, b"DATAERR"),
        (4, b"RTERR"),
        (5, b"OTHER5"),
        (6, b"OTHER6"),
        (7, b"OTHER7"),
        (8, b"OTHER8"),
        (9, b"OTHER9"),
        (10, b"OTHER10"),
        (11, b"OTHER11"),
        (12, b"OTHER12"),
        (13, b"OTHER13"),
        (14, b"OTHER14"),
        (15, b"OTHER15"),
    ];
    let around: (&[u8], &[u8]) = (
        b"0 status vc 0 eob 0 eov 0 seq 0 dst 1 meta 0 code ",
        b" src 2 cap 4096/16 got 48/3 info 0 buffer 0",
    );
    names_hold(&rt, rt.alloc(), &STATUS_PACKET, 10, &codes, around)
}

#[test]
fn command_codes_have_names(rt: HostRuntime) -> Result<(), Fail> {
    let codes: [(u8, &[u8]); 16] = [
        (0, b"INIT"),
        (1, b"PING"),
        (2, b"RESYNC"),
        (3, b"OTHER3"),
        (4, b"OTHER4"),
        (5, b"OTHER5"),
        (6, b"OTHER6"),
        (7, b"OTHER7"),
        (8, b"OTHER8"),
        (9, b"OTHER9"),
        (10, b"OTHER10"),
        (11, b"OTHER11"),
        (12, b"OTHER12"),
        (13, b"OTHER13"),
        (14, b"OTHER14"),
        (15, b"OTHER15"),
    ];
    let around: (&[u8], &[u8]) = (
        b"0 command vc 0 eob 0 eov 0 seq 0 dst 2 meta 0 op ",
        b" src 1 data 0 packets 6 bytes 96",
    );
    names_hold(&rt, rt.alloc(), &RESYNC_COMMAND, 10, &codes, around)
}

#[test]
fn control_codes_have_names(rt: HostRuntime) -> Result<(), Fail> {
    let codes: [(u8, &[u8]); 16] = [
        (0, b"SLEEP status OKAY"),
        (64 + 1, b"WRITE status CMDERR"),
        (128 + 2, b"READ status TSERR"),
        (192 + 3, b"READ_WRITE status WARNING"),
        (4, b"BLOCK_WRITE status OKAY"),
        (64 + 5, b"BLOCK_READ status CMDERR"),
        (128 + 6, b"POLL status TSERR"),
        (192 + 7, b"OTHER7 status WARNING"),
        (8, b"OTHER8 status OKAY"),
        (64 + 9, b"OTHER9 status CMDERR"),
        (128 + 10, b"USER10 status TSERR"),
        (192 + 11, b"USER11 status WARNING"),
        (12, b"USER12 status OKAY"),
        (64 + 13, b"USER13 status CMDERR"),
        (128 + 14, b"USER14 status TSERR"),
        (192 + 15, b"USER15 status WARNING"),
    ];
    let around: (&[u8], &[u8]) = (
        b"0 control vc 0 eob 0 eov 0 seq 0 dst 5 meta 0 req src 1 seq 3 ports 0>7 time - op ",
        b" enables 15 addr 16 words 17 34",
    );
    names_hold(&rt, rt.alloc(), &SHORT_CONTROL_PACKET, 19, &codes, around)
}
