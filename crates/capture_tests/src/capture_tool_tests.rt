use capture_tool::{Fault, Why, check_capture, show_capture, show_pcap};
use rf_base::{Bytes, CountList, Items, Memory};
use rf_outside::{MemSink, MemSource, SureSink, SureSource, Text};
use std::alloc::Global;
use std::test::Fail;

/// Data of 8 zero bytes to endpoint 2.
const DATA_PACKET: [u8; 16] = [2, 0, 16, 0, 0, 0, 192, 0, 0, 0, 0, 0, 0, 0, 0, 0];

/// A data packet of 5 bytes, its pad bytes not zero.
const ODD: [u8; 16] = [2, 0, 13, 0, 0, 0, 192, 0, 1, 2, 3, 4, 5, 255, 255, 255];

/// The line of a data packet behind its place.
const DATA_REST: &[u8] = b" data vc 0 eob 0 eov 0 seq 0 dst 2 meta 0 time - bytes 8\n";

/// A packet of each sort, with no number zero.
const SORTS: [u8; 216] = [
    // data at 0: vc 5, eob, eov, type 7, 2 words, seq 300, length 35, dst 1000
    232, 3, 35, 0, 44, 1, 226, 23,
    // time 12345678901
    53, 28, 220, 223, 2, 0, 0, 0,
    // metadata
    1, 0, 0, 0, 0, 0, 0, 0,
    // metadata
    2, 0, 0, 0, 0, 0, 0, 0,
    // payload of 3 bytes, pad
    1, 2, 3, 0, 0, 0, 0, 0,
    // status at 40: vc 1, eob, type 1, 1 word, seq 2, length 48, dst 3
    3, 0, 48, 0, 2, 0, 33, 6,
    // metadata
    9, 0, 0, 0, 0, 0, 0, 0,
    // capacity 5 bytes, code 3, source 4
    4, 0, 3, 5, 0, 0, 0, 0,
    // transferred 7 packets, capacity 6 packets
    6, 0, 0, 7, 0, 0, 0, 0,
    // transferred 8 bytes
    8, 0, 0, 0, 0, 0, 0, 0,
    // info 9, buffer 10
    10, 0, 9, 0, 0, 0, 0, 0,
    // command at 88: vc 63, eov, type 2, 1 word, seq 65535, length 32, dst 65535
    255, 255, 32, 0, 255, 255, 65, 253,
    // metadata
    9, 0, 0, 0, 0, 0, 0, 0,
    // 13 packets, data 12, op 2, source 11
    11, 0, 194, 13, 0, 0, 0, 0,
    // 14 bytes
    14, 0, 0, 0, 0, 0, 0, 0,
    // control at 120: vc 2, eob, type 4, 1 word, seq 4, length 48, dst 5
    5, 0, 48, 0, 4, 0, 129, 10,
    // metadata
    9, 0, 0, 0, 0, 0, 0, 0,
    // source 15, ack, time, seq 16, 3 words, ports 17 and 18
    18, 68, 48, 208, 15, 0, 0, 0,
    // time 19
    19, 0, 0, 0, 0, 0, 0, 0,
    // status 3, op 5, enables 9, address 20; the word 21
    20, 0, 144, 197, 21, 0, 0, 0,
    // the words 22 and 23
    22, 0, 0, 0, 23, 0, 0, 0,
    // management at 168: vc 3, eov, type 0, 1 word, seq 6, length 48, dst 7
    7, 0, 48, 0, 6, 0, 1, 13,
    // metadata
    9, 0, 0, 0, 0, 0, 0, 0,
    // version 25, width 6, 2 hops, source 24
    24, 0, 2, 0, 0, 192, 25, 0,
    // an operation, 1 pending
    1, 1, 0, 0, 0, 0, 0, 0,
    // the last of its hop
    0, 3, 0, 0, 0, 0, 0, 0,
    // the second hop
    0, 0, 0, 0, 0, 0, 0, 0,
];

const SORTS_LISTED: &[u8] = b"\
0 data vc 5 eob 1 eov 1 seq 300 dst 1000 meta 2 time 12345678901 bytes 3\n\
40 status vc 1 eob 1 eov 0 seq 2 dst 3 meta 1 code DATAERR src 4 cap 5/6 got 8/7 info 9 buffer 10\n\
88 command vc 63 eob 0 eov 1 seq 65535 dst 65535 meta 1 \
op RESYNC src 11 data 12 packets 13 bytes 14\n\
120 control vc 2 eob 1 eov 0 seq 4 dst 5 meta 1 ack src 15 seq 16 ports 17>18 time 19 \
op BLOCK_READ status WARNING enables 9 addr 20 words 21 22 23\n\
168 management vc 3 eob 0 eov 1 seq 6 dst 7 meta 1 src 24 version 25 width 6 hops 2 ops 3\n\
packets 5\n";

/// The bytes of examples/one-of-each.chdr.
const EXAMPLE: [u8; 184] = [
    // data at 0: type 6, length 16, dst 2
    2, 0, 16, 0, 0, 0, 192, 0,
    // payload of 8 bytes
    0, 0, 0, 0, 0, 0, 0, 0,
    // data at 16: type 7, length 29, dst 2
    2, 0, 29, 0, 0, 0, 224, 0,
    // time 1000
    232, 3, 0, 0, 0, 0, 0, 0,
    // payload of 13 bytes
    0, 1, 2, 3, 4, 5, 6, 7,
    // its rest, pad
    8, 9, 10, 11, 12, 0, 0, 0,
    // status at 48: type 1, length 40, dst 1
    1, 0, 40, 0, 0, 0, 32, 0,
    // capacity 4096 bytes, code 0, source 2
    2, 0, 0, 0, 16, 0, 0, 0,
    // transferred 3 packets, capacity 16 packets
    16, 0, 0, 3, 0, 0, 0, 0,
    // transferred 48 bytes
    48, 0, 0, 0, 0, 0, 0, 0,
    // info 0, buffer 0
    0, 0, 0, 0, 0, 0, 0, 0,
    // command at 88: type 2, length 24, dst 2
    2, 0, 24, 0, 0, 0, 64, 0,
    // 6 packets, data 0, op 2, source 1
    1, 0, 2, 6, 0, 0, 0, 0,
    // 96 bytes
    96, 0, 0, 0, 0, 0, 0, 0,
    // control at 112: type 4, length 32, dst 5
    5, 0, 32, 0, 0, 0, 128, 0,
    // source 1, seq 3, 2 words, ports 0 and 7
    7, 0, 32, 3, 1, 0, 0, 0,
    // status 0, op 4, enables 15, address 16; the word 17
    16, 0, 240, 4, 17, 0, 0, 0,
    // the word 34, rounding
    34, 0, 0, 0, 0, 0, 0, 0,
    // management at 144: type 0, length 40, dst 0
    0, 0, 40, 0, 0, 0, 0, 0,
    // version 256, width 0, 2 hops, source 1
    1, 0, 2, 0, 0, 0, 0, 1,
    // an operation, 1 pending
    1, 1, 0, 0, 0, 0, 0, 0,
    // the last of its hop
    0, 2, 1, 0, 0, 0, 0, 0,
    // the second hop
    0, 0, 0, 0, 0, 0, 0, 0,
];

/// The listing that examples/README.md gives.
const EXAMPLE_LISTED: &[u8] = b"\
0 data vc 0 eob 0 eov 0 seq 0 dst 2 meta 0 time - bytes 8\n\
16 data vc 0 eob 0 eov 0 seq 0 dst 2 meta 0 time 1000 bytes 13\n\
48 status vc 0 eob 0 eov 0 seq 0 dst 1 meta 0 code OKAY src 2 cap 4096/16 \
got 48/3 info 0 buffer 0\n\
88 command vc 0 eob 0 eov 0 seq 0 dst 2 meta 0 op RESYNC src 1 data 0 packets 6 bytes 96\n\
112 control vc 0 eob 0 eov 0 seq 0 dst 5 meta 0 req src 1 seq 3 ports 0>7 time - \
op BLOCK_WRITE status OKAY enables 15 addr 16 words 17 34\n\
144 management vc 0 eob 0 eov 0 seq 0 dst 0 meta 0 src 1 version 256 width 0 hops 2 ops 3\n\
packets 6\n";

/// The bytes of examples/two-datagrams.pcap.
const PCAP_EXAMPLE: [u8; 380] = [
    // the file's header, little order, Ethernet
    212, 195, 178, 161, 2, 0, 4, 0, 0, 0, 0, 0, 0, 0, 0, 0, 0, 0, 4, 0, 1, 0, 0, 0,
    // record 0: 98 bytes of frame
    0, 0, 0, 0, 0, 0, 0, 0, 98, 0, 0, 0, 98, 0, 0, 0,
    // its frame
    2, 0, 0, 0, 0, 2, 2, 0, 0, 0, 0, 1, 8, 0, 69, 0, 0, 84, 0, 0, 64, 0, 64, 17, 0, 0, 10, 0, 0, 1,
    10, 0, 0, 2, 192, 1, 195, 80, 0, 64, 0, 0, 2, 0, 16, 0, 0, 0, 192, 0, 0, 0, 0, 0, 0, 0, 0, 0,
    1, 0, 40, 0, 0, 0, 32, 0, 2, 0, 0, 0, 16, 0, 0, 0, 16, 0, 0, 3, 0, 0, 0, 0, 48, 0, 0, 0, 0, 0,
    0, 0, 0, 0, 0, 0, 0, 0, 0, 0,
    // record 1: 60 bytes of frame, ARP
    1, 0, 0, 0, 0, 0, 0, 0, 60, 0, 0, 0, 60, 0, 0, 0,
    // its frame
    2, 0, 0, 0, 0, 2, 2, 0, 0, 0, 0, 1, 8, 6, 0, 0, 0, 0, 0, 0, 0, 0, 0, 0, 0, 0, 0, 0, 0, 0, 0, 0,
    0, 0, 0, 0, 0, 0, 0, 0, 0, 0, 0, 0, 0, 0, 0, 0, 0, 0, 0, 0, 0, 0, 0, 0, 0, 0, 0, 0,
    // record 2: 74 bytes of frame
    2, 0, 0, 0, 0, 0, 0, 0, 74, 0, 0, 0, 74, 0, 0, 0,
    // its frame
    2, 0, 0, 0, 0, 2, 2, 0, 0, 0, 0, 1, 8, 0, 69, 0, 0, 60, 0, 0, 64, 0, 64, 17, 0, 0, 10, 0, 0, 1,
    10, 0, 0, 2, 195, 80, 192, 1, 0, 40, 0, 0, 2, 0, 29, 0, 0, 0, 224, 0, 232, 3, 0, 0, 0, 0, 0, 0,
    0, 1, 2, 3, 4, 5, 6, 7, 8, 9, 10, 11, 12, 0, 0, 0,
    // record 3: 60 of 74 bytes of frame
    3, 0, 0, 0, 0, 0, 0, 0, 60, 0, 0, 0, 74, 0, 0, 0,
    // its frame
    2, 0, 0, 0, 0, 2, 2, 0, 0, 0, 0, 1, 8, 0, 69, 0, 0, 60, 0, 0, 64, 0, 64, 17, 0, 0, 10, 0, 0, 1,
    10, 0, 0, 2, 192, 1, 195, 80, 0, 40, 0, 0, 2, 0, 29, 0, 0, 0, 224, 0, 232, 3, 0, 0, 0, 0, 0, 0,
    0, 1,
];

/// The listing that examples/README.md gives.
const PCAP_LISTED: &[u8] = b"\
record 0 49153>50000 bytes 56\n\
0 data vc 0 eob 0 eov 0 seq 0 dst 2 meta 0 time - bytes 8\n\
16 status vc 0 eob 0 eov 0 seq 0 dst 1 meta 0 code OKAY src 2 cap 4096/16 \
got 48/3 info 0 buffer 0\n\
record 2 50000>49153 bytes 32\n\
0 data vc 0 eob 0 eov 0 seq 0 dst 2 meta 0 time 1000 bytes 13\n\
records 4 datagrams 2 cut 1 packets 3 faults 0\n";

fn bytes_of(alloc: Global, bytes: &[u8]) -> Result<Bytes, Memory> {
    Ok(Items::from_vec(Vec::from_slice(alloc, bytes)?))
}

fn counts(alloc: Global, counts: &[u64]) -> Result<CountList, Memory> {
    Ok(Items::from_vec(Vec::from_slice(alloc, counts)?))
}

fn joined(alloc: Global, parts: &[&[u8]]) -> Result<Vec<u8>, Memory> {
    let mut text = Vec::new(alloc);
    for part in parts {
        text.extend_from_slice(part)?;
    }
    Ok(text)
}

/// The status of show on these bytes, and what it wrote.
fn shown(alloc: Global, bytes: &[u8]) -> Result<(u8, SureSink), Memory> {
    let mut src = SureSource::new(bytes_of(alloc, bytes)?);
    let mut out = SureSink::new(alloc, 4096)?;
    let status = show_capture(alloc, &mut src, &mut out);
    Ok((status, out))
}

fn checked(alloc: Global, bytes: &[u8]) -> Result<(u8, SureSink), Memory> {
    let mut src = SureSource::new(bytes_of(alloc, bytes)?);
    let mut out = SureSink::new(alloc, 100)?;
    let status = check_capture(alloc, &mut src, &mut out);
    Ok((status, out))
}

#[test]
fn captures_are_listed(rt: HostRuntime) -> Result<(), Fail> {
    let reserved = [2, 0, 8, 0, 0, 0, 96, 0];
    let two = joined(rt.alloc(), &[&DATA_PACKET, &reserved])?;
    let two_lines = joined(
        rt.alloc(),
        &[b"0", DATA_REST, b"fault ReservedType at 16\n"],
    )?;
    let one_line = joined(rt.alloc(), &[b"0", DATA_REST, b"packets 1\n"])?;
    let rows: [(&[u8], &[u8], u8); 8] = [
        (&DATA_PACKET, one_line.as_slice(), 0),
        (&[], b"packets 0\n", 0),
        (
            &ODD,
            b"0 data vc 0 eob 0 eov 0 seq 0 dst 2 meta 0 time - bytes 5\npackets 1\n",
            0,
        ),
        (&[2, 0, 7, 0, 0, 0, 192, 0], b"fault BadLength at 0\n", 7),
        (two.as_slice(), two_lines.as_slice(), 7),
        (&DATA_PACKET[..15], b"fault Truncated at 0\n", 7),
        (&SORTS, SORTS_LISTED, 0),
        (&EXAMPLE, EXAMPLE_LISTED, 0),
    ];
    for (bytes, listing, want) in rows {
        let (status, out) = shown(rt.alloc(), bytes)?;
        assert_eq!(rt; out.kept(), listing);
        assert_eq!(rt; status, want);
    }
    Ok(())
}

#[test]
fn captures_are_checked(rt: HostRuntime) -> Result<(), Fail> {
    let rows: [(&[u8], &[u8], u8); 5] = [
        (&DATA_PACKET, b"packets 1 canonical 1\n", 0),
        (&[], b"packets 0 canonical 0\n", 0),
        (&ODD, b"packets 1 canonical 0\n", 0),
        (&SORTS, b"packets 5 canonical 5\n", 0),
        (&EXAMPLE, b"packets 6 canonical 6\n", 0),
    ];
    for (bytes, line, want) in rows {
        let (status, out) = checked(rt.alloc(), bytes)?;
        assert_eq!(rt; out.kept(), line);
        assert_eq!(rt; status, want);
    }
    Ok(())
}

#[test]
fn a_packet_cut_anywhere_is_truncated(rt: HostRuntime) -> Result<(), Fail> {
    let truncated: &[u8] = b"fault Truncated at 0\n";
    for cut in 1..DATA_PACKET.len() {
        let (status, out) = shown(rt.alloc(), &DATA_PACKET[..cut])?;
        assert_eq!(rt; out.kept(), truncated, "at {cut}");
        assert_eq!(rt; status, 7);
    }
    Ok(())
}

#[test]
fn a_listing_is_the_same_however_the_bytes_come(rt: HostRuntime) -> Result<(), Fail> {
    let listing = joined(rt.alloc(), &[b"0", DATA_REST, b"packets 1\n"])?;
    for cut in 1..16 {
        let bytes = bytes_of(rt.alloc(), &DATA_PACKET)?;
        let cuts = counts(rt.alloc(), &[cut])?;
        let mut src = MemSource::new(bytes, cuts, Items::new(rt.alloc()));
        let mut out = SureSink::new(rt.alloc(), 100)?;
        assert_eq!(rt; show_capture(rt.alloc(), &mut src, &mut out), 0);
        assert_eq!(rt; out.kept(), listing.as_slice(), "at {cut}");
    }
    Ok(())
}

#[test]
fn a_pcap_file_is_listed(rt: HostRuntime) -> Result<(), Fail> {
    let other: &[u8] = b"records 4 datagrams 0 cut 0 packets 0 faults 0\n";
    for (port, listing) in [(49153, PCAP_LISTED), (50000, PCAP_LISTED), (50001, other)] {
        let mut src = SureSource::new(bytes_of(rt.alloc(), &PCAP_EXAMPLE)?);
        let mut out = SureSink::new(rt.alloc(), 4096)?;
        assert_eq!(rt; show_pcap(rt.alloc(), &mut src, &mut out, port), 0);
        assert_eq!(rt; out.kept(), listing);
    }
    Ok(())
}

/// As many data packets as one read takes.
fn many(alloc: Global) -> Result<Vec<u8>, Memory> {
    let mut bytes = Vec::new(alloc);
    for _ in 0..4096 {
        bytes.extend_from_slice(&DATA_PACKET)?;
    }
    Ok(bytes)
}

fn many_lines(alloc: Global) -> Result<Text, Memory> {
    let mut lines = Text::new(alloc);
    for k in 0..4096u64 {
        lines.put_number(16 * k)?;
        lines.put(DATA_REST)?;
    }
    Ok(lines)
}

#[test]
fn a_failed_read_leaves_the_lines_before_it(rt: HostRuntime) -> Result<(), Fail> {
    let bytes = Items::from_vec(many(rt.alloc())?);
    let lines = many_lines(rt.alloc())?;
    let fails = counts(rt.alloc(), &[1])?;
    let mut src = MemSource::new(bytes, Items::new(rt.alloc()), fails);
    let mut out = SureSink::new(rt.alloc(), 1 << 20)?;
    assert_eq!(rt; show_capture(rt.alloc(), &mut src, &mut out), 3);
    assert_eq!(rt; out.kept(), lines.as_bytes());
    Ok(())
}

#[test]
fn a_line_is_written_with_its_piece(rt: HostRuntime) -> Result<(), Fail> {
    let bytes = Items::from_vec(joined(rt.alloc(), &[&DATA_PACKET, &DATA_PACKET])?);
    let cuts = counts(rt.alloc(), &[16, 15])?;
    let fails = counts(rt.alloc(), &[2])?;
    let mut src = MemSource::new(bytes, cuts, fails);
    let mut out = SureSink::new(rt.alloc(), 100)?;
    assert_eq!(rt; show_capture(rt.alloc(), &mut src, &mut out), 3);
    let first = joined(rt.alloc(), &[b"0", DATA_REST])?;
    assert_eq!(rt; out.kept(), first.as_slice());
    Ok(())
}

#[test]
fn a_fault_says_itself_as_its_line(rt: HostRuntime) -> Result<(), Fail> {
    let fault = Fault {
        at: 16,
        why: Why::BadManagement,
    };
    let text = format!(in rt.alloc(); "{fault}")?;
    assert_eq!(rt; text.as_str(), "fault BadManagement at 16");
    Ok(())
}

#[test]
fn a_failed_write_leaves_what_was_taken(rt: HostRuntime) -> Result<(), Fail> {
    let listing = joined(rt.alloc(), &[b"0", DATA_REST, b"packets 1\n"])?;
    for call in 0..14usize {
        let mut src = SureSource::new(bytes_of(rt.alloc(), &DATA_PACKET)?);
        let cuts = counts(rt.alloc(), &[5; 20])?;
        let fails = counts(rt.alloc(), &[call as u64])?;
        let mut out = MemSink::new(rt.alloc(), cuts, fails, 100)?;
        assert_eq!(rt; show_capture(rt.alloc(), &mut src, &mut out), 4);
        // the packet's line of 58 bytes takes twelve calls, the last line two
        let want = if call < 12 {
            5 * call
        } else {
            58 + 5 * (call - 12)
        };
        assert_eq!(rt; out.kept().len(), want);
        assert!(rt; listing.as_slice().starts_with(out.kept()));
    }
    Ok(())
}

#[test]
fn a_check_that_cannot_be_written_fails(rt: HostRuntime) -> Result<(), Fail> {
    let mut src = SureSource::new(bytes_of(rt.alloc(), &DATA_PACKET)?);
    let fails = counts(rt.alloc(), &[0])?;
    let mut out = MemSink::new(rt.alloc(), Items::new(rt.alloc()), fails, 100)?;
    assert_eq!(rt; check_capture(rt.alloc(), &mut src, &mut out), 4);
    assert_eq!(rt; out.kept().len(), 0);
    Ok(())
}
