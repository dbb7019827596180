use crate::{End, answer, collect, respell};
use block_registers::{Bank, Banks, PlainBank};
use chdr_packets::PacketFault;
use chdr_words::Epid;
use rf_base::Items;
use std::alloc::Global;
use std::test::Fail;

/// Four bytes of samples, and pad bytes that aren't zero.
const PADDED: [u8; 16] = [2, 0, 12, 0, 1, 0, 192, 0, 1, 2, 3, 4, 9, 8, 7, 6];

/// The same samples, spelled canonically.
const PLAIN: [u8; 16] = [2, 0, 12, 0, 1, 0, 192, 0, 1, 2, 3, 4, 0, 0, 0, 0];

/// Endpoint 1 asks port 2 of endpoint 7 for the register at address 4.
const REQUEST: [u8; 24] = [
    0x07, 0x00, 0x18, 0x00, 0x00, 0x00, 0x80, 0x00, // header, Length 24
    0x02, 0x00, 0x00, 0x03, 0x01, 0x00, 0x00, 0x00, // source, number, words, ports
    0x04, 0x00, 0xf0, 0x02, // operation
    0x00, 0x00, 0x00, 0x00, // up to whole words
];

/// Its acknowledgement, with the word 11.
const REPLY: [u8; 24] = [
    0x01, 0x00, 0x18, 0x00, 0x00, 0x00, 0x80, 0x04, // header, Length 24, channel 1
    0x00, 0x08, 0x10, 0x83, 0x07, 0x00, 0x00, 0x00, // source, number, words, ports
    0x04, 0x00, 0xf0, 0x02, // operation
    0x0b, 0x00, 0x00, 0x00, // word
];

#[test]
fn a_packet_is_spelled_again_with_zero_pad_bytes(rt: HostRuntime) -> Result<(), Fail> {
    let again = respell(rt.alloc(), &PADDED)?.ok_or("a packet")?;
    assert_eq!(rt; again.as_slice(), PLAIN.as_slice());
    assert_eq!(rt; respell(rt.alloc(), &PADDED[..15])?, None);
    let short = [2, 0, 7, 0, 0, 0, 192, 0];
    assert_eq!(rt; respell(rt.alloc(), &short), Err(PacketFault::BadLength));
    Ok(())
}

/// Two words that can't be written.
fn two(alloc: Global) -> Result<PlainBank, Fail> {
    let mut words = Items::new(alloc);
    words.push(10)?;
    words.push(11)?;
    let mut masks = Items::new(alloc);
    masks.push(0)?;
    masks.push(0)?;
    Ok(PlainBank::new(words, masks))
}

#[test]
fn a_read_is_answered_with_its_word(rt: HostRuntime) -> Result<(), Fail> {
    let bank: Bank = Box::new(rt.alloc(), two(rt.alloc())?)?;
    let mut slots = Banks::new(rt.alloc())?;
    let _empty = slots.load(2, bank);
    let reply = answer(rt.alloc(), Epid(7), &mut slots, &REQUEST)?.ok_or("a reply")?;
    assert_eq!(rt; reply.as_slice(), REPLY.as_slice());
    assert_eq!(rt; answer(rt.alloc(), Epid(1), &mut slots, &REPLY)?, None);
    Ok(())
}

#[test]
fn a_packet_comes_from_two_pieces_and_the_rest_is_cut(rt: HostRuntime) -> Result<(), Fail> {
    let pieces = [
        Items::from_vec(PADDED[..5].to_vec(rt.alloc())?),
        Items::from_vec(PADDED[5..].to_vec(rt.alloc())?),
        Items::from_vec(PLAIN[..9].to_vec(rt.alloc())?),
    ];
    let found = collect(rt.alloc(), &pieces)?;
    assert_eq!(rt; found.packets.len(), 1);
    assert_eq!(rt; found.end, End::Truncated { at: 16 });
    Ok(())
}
