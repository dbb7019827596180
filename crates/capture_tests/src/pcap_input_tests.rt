ghost use Rattle.std.specs.Prelude.{◌≤◌, length};

use chdr_stream::FinishFault;
use pcap_input::{PcapFault, PcapItem, PcapReader, PcapReason};
use rf_base::{Bytes, Items, Memory};
use std::alloc::Global;
use std::test::Fail;

/// The header of a file in little order, of microseconds.
const HEADER: [u8; 24] = [
    0xd4, 0xc3, 0xb2, 0xa1, // magic number
    2, 0, 4, 0, // version 2.4
    0, 0, 0, 0, 0, 0, 0, 0, // ignored
    0, 0, 4, 0, // snap length
    1, 0, 0, 0, // Ethernet
];

/// A frame with a datagram of 16 bytes from port 49153 to port 50000.
const FRAME: [u8; 58] = [
    2, 0, 0, 0, 0, 2, 2, 0, 0, 0, 0, 1, 8, 0, // Ethernet: IPv4
    0x45, 0, 0, 44, 0, 0, 0x40, 0, 0x40, 17, 0, 0, // version and length, total, flags, UDP
    10, 0, 0, 1, 10, 0, 0, 2, // addresses
    0xc0, 1, 0xc3, 0x50, 0, 24, 0, 0, // ports, length
    2, 0, 16, 0, 0, 0, 0xc0, 0, 0, 0, 0, 0, 0, 0, 0, 0, // a data packet
];

/// A record's header for a frame of this many bytes, in little order.
fn record_head(size: u32) -> [u8; 16] {
    let [a, b, c, d] = size.to_le_bytes();
    [0, 0, 0, 0, 0, 0, 0, 0, a, b, c, d, a, b, c, d]
}

/// What a file with this frame gives first for port 49153.
fn first_of(alloc: Global, frame: &[u8]) -> Result<Option<PcapItem>, Fail>
    requires { length frame.now ≤ 100 }
{
    let mut reader = PcapReader::new(alloc, 49153);
    reader.feed(&HEADER)?;
    reader.feed(&record_head(frame.len() as u32))?;
    reader.feed(frame)?;
    Ok(reader.next()?)
}

fn payload(alloc: Global, bytes: &[u8]) -> Result<Bytes, Memory> {
    Ok(Items::from_vec(Vec::from_slice(alloc, bytes)?))
}

/// The frame as a datagram, with its last bytes as the payload.
fn datagram(alloc: Global, from: u16, to: u16, bytes: &[u8]) -> Result<Option<PcapItem>, Memory> {
    Ok(Some(PcapItem::Datagram {
        number: 0,
        from,
        to,
        payload: payload(alloc, bytes)?,
    }))
}

#[test]
fn a_byte_out_of_place_makes_another_frame(rt: HostRuntime) -> Result<(), Fail> {
    // the place of a byte, its value, and the test of the frame that fails
    let rows: [(usize, u8, &str); 13] = [
        (12, 9, "the type's high byte"),
        (13, 6, "the type's low byte"),
        (14, 0x55, "version 5"),
        (14, 0x44, "a header of 16 bytes"),
        (17, 27, "a total length without room for the UDP header"),
        (17, 43, "a UDP length past the total length"),
        (20, 0x20, "more fragments"),
        (20, 0x1f, "the offset's high bits"),
        (21, 1, "the offset's low bits"),
        (23, 6, "TCP"),
        (34, 0xc1, "another source port"),
        (39, 7, "a UDP length below its header"),
        (39, 25, "a UDP length of one byte more"),
    ];
    for (at, value, why) in rows {
        let mut frame = FRAME;
        frame[at] = value;
        let item = first_of(rt.alloc(), &frame)?;
        assert!(rt; item == Some(PcapItem::Other { number: 0 }), "{why}");
    }
    Ok(())
}

#[test]
fn a_test_holds_at_its_edge(rt: HostRuntime) -> Result<(), Fail> {
    // two bytes with their values, and how many bytes the payload has then
    let rows: [(usize, u8, usize, u8, usize); 6] = [
        (17, 28, 39, 8, 0), // the total length has room for the UDP header alone
        (17, 44, 39, 24, 16), // the datagram ends with the packet
        (17, 255, 39, 24, 16), // and before it
        (20, 0x40, 21, 0, 16), // the flag against fragments
        (20, 0xc0, 21, 0, 16), // and the reserved one
        (15, 1, 22, 1, 16), // bytes that aren't looked at
    ];
    for (at, value, next, other, size) in rows {
        let mut frame = FRAME;
        frame[at] = value;
        frame[next] = other;
        let want = datagram(rt.alloc(), 49153, 50000, &FRAME[42..42 + size])?;
        assert!(rt; first_of(rt.alloc(), &frame)? == want, "at {at}");
    }
    Ok(())
}

#[test]
fn either_port_is_enough(rt: HostRuntime) -> Result<(), Fail> {
    let mut frame = FRAME;
    frame[34] = 0xc3;
    frame[35] = 0x51;
    frame[36] = 0xc0;
    frame[37] = 1;
    let want = datagram(rt.alloc(), 50001, 49153, &FRAME[42..])?;
    assert!(rt; first_of(rt.alloc(), &frame)? == want);
    frame[37] = 2;
    assert!(rt; first_of(rt.alloc(), &frame)? == Some(PcapItem::Other { number: 0 }));
    Ok(())
}

#[test]
fn a_longer_header_moves_the_datagram(rt: HostRuntime) -> Result<(), Fail> {
    let mut frame = [0u8; 62];
    frame[..34].copy_from_slice(&FRAME[..34]);
    frame[38..].copy_from_slice(&FRAME[34..]);
    frame[14] = 0x46;
    frame[17] = 48;
    let want = datagram(rt.alloc(), 49153, 50000, &FRAME[42..])?;
    assert!(rt; first_of(rt.alloc(), &frame)? == want);
    Ok(())
}

#[test]
fn a_frame_is_whole_cut_or_padded(rt: HostRuntime) -> Result<(), Fail> {
    let whole = datagram(rt.alloc(), 49153, 50000, &FRAME[42..])?;
    for size in 0..61usize {
        let mut frame = [0u8; 60];
        frame[..58].copy_from_slice(&FRAME);
        let item = first_of(rt.alloc(), &frame[..size.min(60)])?;
        if size < 42 {
            assert!(rt; item == Some(PcapItem::Other { number: 0 }), "of {size}");
        } else if size < 58 {
            assert!(rt; item == Some(PcapItem::Cut { number: 0 }), "of {size}");
        } else {
            assert!(rt; item == whole, "of {size}");
        }
    }
    Ok(())
}

#[test]
fn both_orders_and_both_magic_numbers_are_read(rt: HostRuntime) -> Result<(), Fail> {
    let magics: [[u8; 4]; 2] = [[0xa1, 0xb2, 0xc3, 0xd4], [0xa1, 0xb2, 0x3c, 0x4d]];
    for [a, b, c, d] in magics {
        let little = [
            d, c, b, a, 2, 0, 4, 0, 0, 0, 0, 0, 0, 0, 0, 0, 0, 0, 4, 0, 1, 0, 0, 0,
        ];
        let big = [
            a, b, c, d, 0, 2, 0, 4, 0, 0, 0, 0, 0, 0, 0, 0, 0, 4, 0, 0, 0, 0, 0, 1,
        ];
        let mut reader = PcapReader::new(rt.alloc(), 1);
        reader.feed(&little)?;
        reader.feed(&record_head(0))?;
        assert!(rt; reader.next() == Ok(Some(PcapItem::Other { number: 0 })));
        let mut reader = PcapReader::new(rt.alloc(), 1);
        reader.feed(&big)?;
        reader.feed(&[0, 0, 0, 0, 0, 0, 0, 0, 0, 0, 0, 1, 0, 0, 0, 1, 7])?;
        assert!(rt; reader.next() == Ok(Some(PcapItem::Other { number: 0 })));
        assert!(rt; reader.next() == Ok(None));
        assert!(rt; reader.finish() == Ok(()));
    }
    Ok(())
}

#[test]
fn a_header_is_refused_by_its_first_test_that_fails(rt: HostRuntime) -> Result<(), Fail> {
    let rows: [(usize, u8, PcapReason); 5] = [
        (0, 0xd5, PcapReason::BadMagic),
        (4, 3, PcapReason::BadVersion),
        (5, 1, PcapReason::BadVersion),
        (20, 2, PcapReason::BadLink),
        (21, 1, PcapReason::BadLink),
    ];
    for (at, value, reason) in rows {
        let mut header = HEADER;
        header[at] = value;
        let mut reader = PcapReader::new(rt.alloc(), 1);
        reader.feed(&header)?;
        assert!(rt; reader.next() == Err(PcapFault::Bad { at: 0, reason }));
    }
    let mut header = HEADER;
    header[22] = 1;
    let mut reader = PcapReader::new(rt.alloc(), 1);
    reader.feed(&header)?;
    assert!(rt; reader.next() == Ok(None));
    assert!(rt; reader.finish() == Ok(()));
    Ok(())
}

#[test]
fn a_record_stores_at_most_262144_bytes(rt: HostRuntime) -> Result<(), Fail> {
    let mut reader = PcapReader::new(rt.alloc(), 1);
    reader.feed(&HEADER)?;
    reader.feed(&record_head(262_145))?;
    let fault = PcapFault::Bad {
        at: 24,
        reason: PcapReason::BadRecord,
    };
    assert!(rt; reader.next() == Err(fault));
    let mut reader = PcapReader::new(rt.alloc(), 1);
    reader.feed(&HEADER)?;
    reader.feed(&record_head(262_144))?;
    assert!(rt; reader.next() == Ok(None));
    assert!(rt; reader.finish() == Err(FinishFault::Truncated { at: 24 }));
    let text = format!(in rt.alloc(); "{fault}")?;
    assert_eq!(rt; text.as_str(), "BadRecord at 24");
    Ok(())
}

#[test]
fn a_file_cut_anywhere_is_truncated(rt: HostRuntime) -> Result<(), Fail> {
    let mut file = [0u8; 98];
    file[..24].copy_from_slice(&HEADER);
    file[24..40].copy_from_slice(&record_head(58));
    file[40..].copy_from_slice(&FRAME);
    for cut in 0..98usize {
        let mut reader = PcapReader::new(rt.alloc(), 49153);
        reader.feed(&file[..cut])?;
        assert!(rt; reader.next() == Ok(None), "at {cut}");
        if cut < 24 {
            assert!(rt;
                reader.finish() == Err(FinishFault::Truncated { at: 0 }),
                "at {cut}"
            );
        } else if cut > 24 {
            assert!(rt;
                reader.finish() == Err(FinishFault::Truncated { at: 24 }),
                "at {cut}"
            );
        } else {
            assert!(rt; reader.finish() == Ok(()));
        }
    }
    Ok(())
}
