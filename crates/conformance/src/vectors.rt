/// Data of 8 zero bytes to endpoint 2.
pub const DATA_PACKET: [u8; 16] = [
    2, 0, // destination
    16, 0, // Length
    0, 0, // number
    0xc0, // type 6, no metadata words
    0, // virtual channel 0, no burst or vector ends
    0, 0, 0, 0, 0, 0, 0, 0, // payload
];

/// Endpoint 2 tells endpoint 1: room for 4,096 bytes and 16 packets.
///
/// 48 bytes and 3 packets were transferred.
pub const STATUS_PACKET: [u8; 40] = [
    1, 0, // destination
    40, 0, // Length
    0, 0, // number
    0x20, 0, // type 1
    2, 0, // source
    0, // code OKAY, reserved bits
    0, 16, 0, 0, 0, // capacity in bytes
    16, 0, 0, // capacity in packets
    3, 0, 0, 0, 0, // transferred packets
    48, 0, 0, 0, 0, 0, 0, 0, // transferred bytes
    0, 0, // buffer
    0, 0, 0, 0, 0, 0, // information
];

/// Endpoint 1 asks port 7 of endpoint 5 to write the words 17 and 34 from address 16 on; Length 28.
pub const SHORT_CONTROL_PACKET: [u8; 32] = [
    5, 0, // destination
    28, 0, // Length, without what rounding adds
    0, 0, // number of the packet
    0x80, 0, // type 4
    7, 0, // destination port, and the low bits of source port 0
    0x20, // two words, and the high bits of source port 0
    3, // number of the request; no time, no acknowledgement
    1, 0, // source
    0, 0, // reserved
    16, 0, // address, low
    0xf0, // all bytes enabled, and the address's high bits
    4, // BLOCK_WRITE, status OKAY
    17, 0, 0, 0, // first word
    34, 0, 0, 0, // second word
    0, 0, 0, 0, // pad
];

/// The same request at the rounded size, Length 32.
pub const LONG_CONTROL_PACKET: [u8; 32] = [
    5, 0, // destination
    32, 0, // Length, rounded up
    0, 0, // number of the packet
    0x80, 0, // type 4
    7, 0, // destination port, and the low bits of source port 0
    0x20, // two words, and the high bits of source port 0
    3, // number of the request; no time, no acknowledgement
    1, 0, // source
    0, 0, // reserved
    16, 0, // address, low
    0xf0, // all bytes enabled, and the address's high bits
    4, // BLOCK_WRITE, status OKAY
    17, 0, 0, 0, // first word
    34, 0, 0, 0, // second word
    0, 0, 0, 0, // what rounding adds
];

/// The operation by which crossbar 1 of device 1, of two ports, answers what came in at its port 0.
pub const INFORMATION_RESPONSE: [u8; 8] = [
    0, // none pending
    5, // INFO_RESP
    1, 0, // device
    0x11, // the low bits of instance 1, kind 1
    0x80, // the low bits of what a crossbar tells: two ports; the high bits of the instance
    0, 0, // the high bits of what it tells: arrival port 0
];

/// Endpoint 1's one hop, refused: its first operation has one pending, and the second one again.
///
/// One with none pending must follow one with one.
pub const MISCOUNTED_HOP: [u8; 40] = [
    0, 0, // destination
    40, 0, // Length
    0, 0, // number
    0, 0, // type 0
    1, 0, // source
    1, 0, // one hop
    0, 0, 0, 1, // reserved bits, width, version 0x0100
    1, 0, 0, 0, 0, 0, 0, 0, // NOP, one pending
    1, 0, 0, 0, 0, 0, 0, 0, // NOP, one pending where none must be
    0, 0, 0, 0, 0, 0, 0, 0, // NOP, none pending
];

/// Endpoint 1 resynchronises endpoint 2 at 6 packets and 96 bytes.
pub const RESYNC_COMMAND: [u8; 24] = [
    2, 0, // destination
    24, 0, // Length
    0, 0, // number
    0x40, 0, // type 2
    1, 0, // source
    2, // RESYNC, data 0
    6, 0, 0, 0, 0, // packets
    96, 0, 0, 0, 0, 0, 0, 0, // bytes
];

/// The last word of a status that expected packet 2 and got packet 3.
pub const SEQUENCE_ERROR_INFO: [u8; 8] = [
    0, 0, // buffer
    3, 0, // got
    2, 0, // expected
    0, 0, // the rest of the information
];
