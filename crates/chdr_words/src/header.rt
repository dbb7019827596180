ghost use Rattle.std.specs.Prelude.{◌≡◌, ◌↔◌, ◌<◌, ◌^◌, IsTrue};
ghost use Rattle.chdr_words.specs.Header.{FitsHeader, FitsType, header_of, header_word, type_number, type_of};

use crate::{Epid, Word};

/// What kind of packet it is; the number is the code of a reserved one, 3 or 5.
#[derive(Clone, Copy, Debug, PartialEq, Eq)]
pub enum PktType {
    Management,
    Status,
    Command,
    Control,
    /// Data without a timestamp.
    Plain,
    /// Data with a timestamp.
    Timed,
    Reserved(u8),
}

/// The first word of a packet.
///
///      63  58  57    56   55  53 52   48 47    32 31     16 15     0
///     +------+-----+-----+------+-------+--------+---------+--------+
///     | vc   | eob | eov | type | words | seq    | length  | dst    |
///     +------+-----+-----+------+-------+--------+---------+--------+
///
/// Rule: docs/wire-format.md, "Header".
#[derive(Clone, Copy, Debug, PartialEq, Eq)]
pub struct Header {
    /// The virtual channel, below 64.
    pub vc: u8,
    /// The end of a burst.
    pub eob: bool,
    /// The end of a vector.
    pub eov: bool,
    pub pkt_type: PktType,
    /// Metadata words, below 32.
    pub num_mdata: u8,
    /// The number of a packet in its stream, modulo 2^16.
    pub seq: u16,
    /// Bytes of header, timestamp, metadata and payload.
    pub length: u16,
    pub dst: Epid,
}

impl PktType {
    /// Whether `Reserved` holds a reserved code.
    pub fn fits(self) -> bool
        ensures { IsTrue result ↔ FitsType self }
    {
        match self {
            PktType::Management
            | PktType::Status
            | PktType::Command
            | PktType::Control
            | PktType::Plain
            | PktType::Timed => true,
            PktType::Reserved(code) => code == 3 || code == 5,
        }
    }
}

fn type_of(code: u8) -> PktType
    ensures { result ≡ type_of code }
{
    match code {
        0 => PktType::Management,
        1 => PktType::Status,
        2 => PktType::Command,
        4 => PktType::Control,
        6 => PktType::Plain,
        7 => PktType::Timed,
        3 | 5 | 8..=255 => PktType::Reserved(code),
    }
}

fn type_number(pkt_type: PktType) -> u8
    requires { FitsType pkt_type }
    ensures number { result ≡ type_number pkt_type }
    ensures below { result < 2 ^ 3 }
    ensures back { type_of result ≡ pkt_type }
{
    match pkt_type {
        PktType::Management => 0,
        PktType::Status => 1,
        PktType::Command => 2,
        PktType::Control => 4,
        PktType::Plain => 6,
        PktType::Timed => 7,
        PktType::Reserved(code) => code,
    }
}

impl Header {
    /// Whether each field fits its bits.
    pub fn fits(&self) -> bool
        ensures { IsTrue result ↔ FitsHeader self.now }
    {
        self.vc < 1 << 6 && self.pkt_type.fits() && self.num_mdata < 1 << 5
    }

    /// The header that the word spells; every word is one.
    pub fn read(word: Word) -> Header
        ensures { result ≡ header_of word.0 }
    {
        Header {
            vc: word.field(63, 58) as u8,
            eob: word.field(57, 57) == 1,
            eov: word.field(56, 56) == 1,
            pkt_type: type_of(word.field(55, 53) as u8),
            num_mdata: word.field(52, 48) as u8,
            seq: word.field(47, 32) as u16,
            length: word.field(31, 16) as u16,
            dst: Epid(word.field(15, 0) as u16),
        }
    }

    /// The word that spells the header; reading it gives the header.
    pub fn write(&self) -> Word
        requires { FitsHeader self.now }
        ensures writes { result.0 ≡ header_word self.now }
        ensures reads { header_of result.0 ≡ self.now }
    {
        let eob = if self.eob { 1 << 57 } else { 0 };
        let eov = if self.eov { 1 << 56 } else { 0 };
        let high = self.vc as u64 * (1 << 58) + eob + eov;
        let middle = type_number(self.pkt_type) as u64 * (1 << 53)
            + self.num_mdata as u64 * (1 << 48);
        let low = self.seq as u64 * (1 << 32) + self.length as u64 * (1 << 16) + self.dst.0 as u64;
        Word(high + middle + low)
    }
}
