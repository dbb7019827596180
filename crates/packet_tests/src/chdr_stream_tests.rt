ghost use Rattle.std.specs.Prelude.{◌≡◌, ◌+◌, length};

use chdr_packets::{Body, PacketFault};
use chdr_stream::{Decoder, FinishFault, Passed, StreamFault};
use chdr_words::MsgFault;
use std::test::Fail;

/// Samples; samples with a pad byte that isn't zero; a register's read at its short size.
const STREAM: [u8; 56] = [
    2, 0, 16, 0, 0, 0, 192, 0, 1, 2, 3, 4, 5, 6, 7, 8, //
    2, 0, 12, 0, 1, 0, 192, 0, 1, 2, 3, 4, 9, 0, 0, 0, //
    2, 0, 20, 0, 0, 0, 128, 0, 0, 0, 0, 0, 1, 0, 0, 0, 0, 0, 0, 2, 0, 0, 0, 0,
];

/// Samples, and a header whose Length is shorter than itself.
const BAD: [u8; 24] = [
    2, 0, 16, 0, 0, 0, 192, 0, 1, 2, 3, 4, 5, 6, 7, 8, //
    2, 0, 7, 0, 0, 0, 192, 0,
];

const BAD_AT_16: StreamFault = StreamFault::Bad {
    at: 16,
    fault: PacketFault::BadLength,
};

/// Asks for a packet, and notes its place and mark.
fn ask(decoder: &mut Decoder, seen: &mut Vec<Passed>) -> Result<(), Fail>
    ensures { decoder.new.at + length decoder.new.kept ≡ decoder.old.at + length decoder.old.kept }
{
    match decoder.next()? {
        None => {}
        Some(placed) => seen.push(Passed {
            at: placed.at,
            canonical: placed.canonical,
        })?,
    }
    Ok(())
}

#[test]
fn three_packets_come_from_any_two_pieces(rt: HostRuntime) -> Result<(), Fail> {
    let want = [(0, true), (16, false), (32, false)].map(|(at, canonical)| Passed {
        at,
        canonical,
    });
    for cut in 0..57 {
        let mut decoder = Decoder::new(rt.alloc());
        let mut seen = Vec::new(rt.alloc());
        decoder.feed(&STREAM[..cut])?;
        ask(&mut decoder, &mut seen)?;
        ask(&mut decoder, &mut seen)?;
        ask(&mut decoder, &mut seen)?;
        decoder.feed(&STREAM[cut..])?;
        ask(&mut decoder, &mut seen)?;
        ask(&mut decoder, &mut seen)?;
        ask(&mut decoder, &mut seen)?;
        assert_eq!(rt; seen.as_slice(), want.as_slice());
        assert!(rt; matches!(decoder.next(), Ok(None)), "at {cut}");
        assert_eq!(rt; decoder.finish(), Ok(()));
    }
    Ok(())
}

#[test]
fn a_packet_is_whole(rt: HostRuntime) -> Result<(), Fail> {
    let mut decoder = Decoder::new(rt.alloc());
    decoder.feed(&STREAM[32..])?;
    let placed = decoder.next()?.ok_or("a packet")?;
    assert_eq!(rt; placed.at, 0);
    assert_eq!(rt; placed.packet.dst.0, 2);
    assert!(rt; matches!(placed.packet.body, Body::Control(_)));
    Ok(())
}

#[test]
fn faults_say_their_reason_and_place(rt: HostRuntime) -> Result<(), Fail> {
    assert_eq!(rt;
        format!(in rt.alloc(); "{BAD_AT_16}")?.as_str(),
        "BadLength at 16"
    );
    let message = StreamFault::Bad {
        at: 8,
        fault: PacketFault::Message(MsgFault::BadManagement),
    };
    assert_eq!(rt;
        format!(in rt.alloc(); "{message}")?.as_str(),
        "BadManagement at 8"
    );
    let cut = FinishFault::Truncated { at: 24 };
    assert_eq!(rt;
        format!(in rt.alloc(); "{cut}")?.as_str(),
        "Truncated at 24"
    );
    Ok(())
}

#[test]
fn a_packet_is_passed(rt: HostRuntime) -> Result<(), Fail> {
    let mut decoder = Decoder::new(rt.alloc());
    decoder.feed(&STREAM[16..])?;
    let want = Passed {
        at: 0,
        canonical: false,
    };
    assert_eq!(rt; decoder.pass(), Ok(Some(want)));
    assert_eq!(rt; decoder.place(), 16);
    assert_eq!(rt; decoder.left(), 24);
    Ok(())
}

#[test]
fn a_fault_comes_with_its_last_byte_and_stays(rt: HostRuntime) -> Result<(), Fail> {
    let mut decoder = Decoder::new(rt.alloc());
    let mut seen = Vec::new(rt.alloc());
    decoder.feed(&BAD[..23])?;
    ask(&mut decoder, &mut seen)?;
    assert_eq!(rt; seen.len(), 1);
    assert!(rt; matches!(decoder.next(), Ok(None)));
    decoder.feed(&BAD[23..])?;
    assert_eq!(rt; decoder.next().err(), Some(BAD_AT_16));
    assert_eq!(rt; decoder.next().err(), Some(BAD_AT_16));
    decoder.feed(&STREAM)?;
    assert_eq!(rt; decoder.pass(), Err(BAD_AT_16));
    assert_eq!(rt; decoder.left(), 8);
    Ok(())
}

#[test]
fn a_cut_end_tells_its_place(rt: HostRuntime) -> Result<(), Fail> {
    let mut decoder = Decoder::new(rt.alloc());
    let mut seen = Vec::new(rt.alloc());
    decoder.feed(&STREAM[..31])?;
    ask(&mut decoder, &mut seen)?;
    assert!(rt; matches!(decoder.next(), Ok(None)));
    assert_eq!(rt; decoder.finish(), Err(FinishFault::Truncated { at: 16 }));
    Ok(())
}

#[test]
fn nothing_is_left_at_the_end(rt: HostRuntime) {
    let mut decoder = Decoder::new(rt.alloc());
    assert!(rt; matches!(decoder.next(), Ok(None)));
    assert_eq!(rt; decoder.finish(), Ok(()));
}
