ghost use Rattle.std.specs.Prelude.{◌≡◌, ◌↔◌, ◌<◌, ◌^◌, ◌≢◌, length, IfOk, IsErrOf, IsTrue};
ghost use Rattle.chdr_words.specs.Status.{FitsStatus, FitsStatusCode, SpellsStatus, status_code_of, status_number, status_plain, status_read};

use crate::bytes::{four_words, word_at};
use crate::{Epid, MsgFault, Word};

/// What a stream status reports; the number is its code on the wire, 5 to 15 for `Other`.
#[derive(Clone, Copy, Debug, PartialEq, Eq)]
pub enum StatusCode {
    Okay,
    CmdErr,
    SeqErr,
    DataErr,
    RtErr,
    Other(u8),
}

/// A stream status: what a receiver can hold, and what it has passed on.
///
///      63                24 23    20 19   16 15        0
///     +--------------------+--------+-------+-----------+
///     | cap_bytes          | free   | code  | src       |
///     +--------------------+--------+-------+-----------+
///     | got_packets        | cap_packets                |
///     +--------------------+----------------------------+
///     | got_bytes                                       |
///     +-------------------------------------+-----------+
///     | info                                | buffer    |
///     +-------------------------------------+-----------+
///
/// Rule: docs/wire-format.md, "Stream status".
#[derive(Clone, Copy, Debug, PartialEq, Eq)]
pub struct Status {
    /// The receiver's buffer in bytes, below 2^40.
    pub cap_bytes: u64,
    pub code: StatusCode,
    /// The receiver's EPID.
    pub src: Epid,
    /// Packets transferred, modulo 2^40.
    pub got_packets: u64,
    /// The receiver's buffer in packets, below 2^24.
    pub cap_packets: u32,
    /// Bytes transferred, modulo 2^64.
    pub got_bytes: u64,
    /// What the code tells besides, below 2^48.
    pub info: u64,
    /// Of a receiver's buffer; passed as it is.
    pub buffer: u16,
}

impl StatusCode {
    /// Whether `Other` holds a code without a name.
    pub fn fits(self) -> bool
        ensures { IsTrue result ↔ FitsStatusCode self }
    {
        match self {
            StatusCode::Okay
            | StatusCode::CmdErr
            | StatusCode::SeqErr
            | StatusCode::DataErr
            | StatusCode::RtErr => true,
            StatusCode::Other(code) => 5 <= code && code < 16,
        }
    }
}

impl Status {
    /// Whether each field fits its bits.
    pub fn fits(&self) -> bool
        ensures { IsTrue result ↔ FitsStatus self.now }
    {
        self.cap_bytes < 1 << 40
            && self.code.fits()
            && self.got_packets < 1 << 40
            && self.cap_packets < 1 << 24
            && self.info < 1 << 48
    }
}

fn code_of(number: u8) -> StatusCode
    ensures { result ≡ status_code_of number }
{
    match number {
        0 => StatusCode::Okay,
        1 => StatusCode::CmdErr,
        2 => StatusCode::SeqErr,
        3 => StatusCode::DataErr,
        4 => StatusCode::RtErr,
        5..=255 => StatusCode::Other(number),
    }
}

fn number_of(code: StatusCode) -> u8
    requires { FitsStatusCode code }
    ensures number { result ≡ status_number code }
    ensures below { result < 2 ^ 4 }
{
    match code {
        StatusCode::Okay => 0,
        StatusCode::CmdErr => 1,
        StatusCode::SeqErr => 2,
        StatusCode::DataErr => 3,
        StatusCode::RtErr => 4,
        StatusCode::Other(other) => other,
    }
}

/// The canonical spelling of the status.
pub fn encode_status(v: &Status) -> [u8; 32]
    requires { FitsStatus v.now }
    ensures spells { SpellsStatus v.now result }
    ensures plain { IsTrue (status_plain result) }
{
    four_words(
        v.cap_bytes * (1 << 24) + number_of(v.code) as u64 * (1 << 16) + v.src.0 as u64,
        v.got_packets * (1 << 24) + v.cap_packets as u64,
        v.got_bytes,
        v.info * (1 << 16) + v.buffer as u64,
    )
}

/// Whether the reserved bits of a status payload are zero.
pub fn is_plain_status(b: &[u8]) -> bool
    requires { length b.now ≡ 32 }
    ensures { result ≡ status_plain b.now }
{
    Word(word_at(b, 0)).field(23, 20) == 0
}

/// The status that the payload spells; each payload of the right size spells one.
pub fn decode_status(b: &[u8]) -> Result<Status, MsgFault>
    ensures reads { IfOk result (λ s. SpellsStatus s b.now) }
    ensures accepts { (s : Status) → SpellsStatus s b.now → result ≡ Ok s }
    ensures refuses { IsErrOf result MsgFault.BadStatusLength ↔ (length b.now ≢ 32) }
    ensures exact { result ≡ status_read b.now }
{
    if b.len() != 32 {
        return Err(MsgFault::BadStatusLength);
    }
    let first = Word(word_at(b, 0));
    let second = Word(word_at(b, 8));
    let fourth = Word(word_at(b, 24));
    Ok(Status {
        cap_bytes: first.field(63, 24),
        code: code_of(first.field(19, 16) as u8),
        src: Epid(first.field(15, 0) as u16),
        got_packets: second.field(63, 24),
        cap_packets: second.field(23, 0) as u32,
        got_bytes: word_at(b, 16),
        info: fourth.field(63, 16),
        buffer: fourth.field(15, 0) as u16,
    })
}
