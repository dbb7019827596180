ghost use Rattle.std.specs.Prelude.{◌≡◌, ◌↔◌, ◌<◌, ◌≤◌, ◌^◌, ◌+◌, ◌*◌, ◌==◌, if◌then◌else◌, take, length, All, IfOk, IfSome, IsErrOf, IsTrue};
ghost use Rattle.chdr_words.specs.Control.{FitsControl, FitsCtrlOp, SpellsControl, SpellsNoControl, control_bytes, control_head, control_op, control_plain, control_read, control_size, control_sized, told_count, told_time, ctrl_op_number, ctrl_op_of, ctrl_status_number, ctrl_status_of};
ghost use Rattle.chdr_words.specs.Field.{field, halves_at, word_at};
ghost use Rattle.chdr_words.specs.Wire.{time_bytes, wire_size_of};

use crate::bytes::{half_at, put_half, put_halves, put_word, word_at};
use crate::{Epid, MsgFault, Word, Words15};

/// What an acknowledgement says of its request.
#[derive(Clone, Copy, Debug, PartialEq, Eq)]
pub enum CtrlStatus {
    Okay,
    CmdErr,
    TsErr,
    Warning,
}

/// A control operation; the number is its code on the wire, 7 to 9 for `Other` and 10 to 15 for
/// `User`.
#[derive(Clone, Copy, Debug, PartialEq, Eq)]
pub enum CtrlOp {
    Sleep,
    Write,
    Read,
    ReadWrite,
    BlockWrite,
    BlockRead,
    Poll,
    Other(u8),
    User(u8),
}

/// A control request, or its acknowledgement.
///
///      63     48 47     32  31  30 29  24 23  20 19          10 9           0
///     +---------+---------+---+---+------+------+--------------+-------------+
///     | free    | src     |ack| t | seq  | num  | src_port     | dst_port    |
///     +---------+---------+---+---+------+------+--------------+-------------+
///     | time, where t is set                                                 |
///     +----------------------------------------------------------------------+
///
///      31    30 29    28 27    24 23      20 19         0
///     +--------+--------+--------+----------+------------+
///     | status | free   | op     | enables  | addr       |
///     +--------+--------+--------+----------+------------+
///     | num words                                        |
///     +--------------------------------------------------+
///
/// Rule: docs/wire-format.md, "Control".
#[derive(Debug, Drop, PartialEq, Eq)]
pub struct Control {
    pub src: Epid,
    pub ack: bool,
    pub time: Option<u64>,
    /// Counts a host's requests, below 64.
    pub seq: u8,
    /// Below 1,024, as `dst_port`.
    pub src_port: u16,
    pub dst_port: u16,
    pub status: CtrlStatus,
    pub op: CtrlOp,
    /// Which bytes of a word are written, one bit each, below 16.
    pub enables: u8,
    /// A register's address in bytes, below 2^20.
    pub addr: u32,
    pub words: Words15,
}

impl Control {
    /// An equal one; it takes no memory.
    pub fn copy(&self) -> Control
        ensures { result ≡ self.now }
    {
        Control {
            src: self.src,
            ack: self.ack,
            time: self.time,
            seq: self.seq,
            src_port: self.src_port,
            dst_port: self.dst_port,
            status: self.status,
            op: self.op,
            enables: self.enables,
            addr: self.addr,
            words: self.words.copy(),
        }
    }

    /// Whether each field fits its bits.
    pub fn fits(&self) -> bool
        ensures { IsTrue result ↔ FitsControl self.now }
    {
        self.seq < 1 << 6
            && self.src_port < 1 << 10
            && self.dst_port < 1 << 10
            && self.op.fits()
            && self.enables < 1 << 4
            && self.addr < 1 << 20
            && self.words.len() <= 15
    }
}

impl CtrlOp {
    /// Whether `Other` and `User` hold codes of their own.
    pub fn fits(self) -> bool
        ensures { IsTrue result ↔ FitsCtrlOp self }
    {
        match self {
            CtrlOp::Sleep
            | CtrlOp::Write
            | CtrlOp::Read
            | CtrlOp::ReadWrite
            | CtrlOp::BlockWrite
            | CtrlOp::BlockRead
            | CtrlOp::Poll => true,
            CtrlOp::Other(code) => 7 <= code && code < 10,
            CtrlOp::User(code) => 10 <= code && code < 16,
        }
    }
}

fn status_of(number: u8) -> CtrlStatus
    ensures { result ≡ ctrl_status_of number }
{
    match number {
        0 => CtrlStatus::Okay,
        1 => CtrlStatus::CmdErr,
        2 => CtrlStatus::TsErr,
        3..=255 => CtrlStatus::Warning,
    }
}

fn status_number(status: CtrlStatus) -> u32
    ensures number { result ≡ ctrl_status_number status }
    ensures below { result < 2 ^ 2 }
{
    match status {
        CtrlStatus::Okay => 0,
        CtrlStatus::CmdErr => 1,
        CtrlStatus::TsErr => 2,
        CtrlStatus::Warning => 3,
    }
}

fn op_of(number: u8) -> CtrlOp
    ensures { result ≡ ctrl_op_of number }
{
    match number {
        0 => CtrlOp::Sleep,
        1 => CtrlOp::Write,
        2 => CtrlOp::Read,
        3 => CtrlOp::ReadWrite,
        4 => CtrlOp::BlockWrite,
        5 => CtrlOp::BlockRead,
        6 => CtrlOp::Poll,
        7..=9 => CtrlOp::Other(number),
        10..=255 => CtrlOp::User(number),
    }
}

fn op_number(op: CtrlOp) -> u32
    requires { FitsCtrlOp op }
    ensures number { result ≡ ctrl_op_number op }
    ensures below { result < 2 ^ 4 }
{
    match op {
        CtrlOp::Sleep => 0,
        CtrlOp::Write => 1,
        CtrlOp::Read => 2,
        CtrlOp::ReadWrite => 3,
        CtrlOp::BlockWrite => 4,
        CtrlOp::BlockRead => 5,
        CtrlOp::Poll => 6,
        CtrlOp::Other(code) => code as u32,
        CtrlOp::User(code) => code as u32,
    }
}

fn time_of(bytes: &[u8], first: u64) -> Option<u64>
    requires { field first 30 30 ≡ 1 → 16 ≤ length bytes.now }
    ensures { result ≡ (if field first 30 30 == 1 then Some (word_at bytes.now 8) else None) }
{
    if Word(first).field(30, 30) == 1 {
        Some(word_at(bytes, 8))
    } else {
        None
    }
}

#[tactic(auto, using(crate::proofs::WordLemmas::more))]
fn words_of(bytes: &[u8], at: usize, count: usize) -> Words15
    requires many { count ≤ 15 }
    requires within { at + 4 * count ≤ length bytes.now }
    ensures { result ≡ halves_at bytes.now at count }
{
    let mut words = Words15::new();
    for k in 0..count {
        words.push(half_at(bytes, at + 4 * k));
    }
    words
}

fn head_of(v: &Control) -> u64
    requires { FitsControl v.now }
    ensures word { result ≡ control_head v.now }
    ensures src { v.now.src.0 < 2 ^ 16 }
{
    let ack = if v.ack { 1 << 31 } else { 0 };
    let timed = match v.time {
        None => 0,
        Some(_) => 1 << 30,
    };
    let flags = v.src.0 as u64 * (1 << 32) + ack + timed;
    let counts = v.seq as u64 * (1 << 24) + v.words.len() as u64 * (1 << 20);
    let ports = v.src_port as u64 * (1 << 10) + v.dst_port as u64;
    flags + counts + ports
}

fn op_word(v: &Control) -> u32
    requires { FitsControl v.now }
    ensures { result ≡ control_op v.now }
{
    let codes = status_number(v.status) * (1 << 30) + op_number(v.op) * (1 << 24);
    codes + v.enables as u32 * (1 << 20) + v.addr
}

fn spell(v: &Control, out: &mut [u8; 80]) -> usize
    requires { FitsControl v.now }
    ensures size { result
        ≡ wire_size_of (control_size (time_bytes v.now.time) (length v.now.words)) }
    ensures bytes { take result out.new ≡ control_bytes v.now }
    ensures src { v.now.src.0 < 2 ^ 16 }
    ensures time { IfSome v.now.time (λ time. time < 2 ^ 64) }
    ensures words { All (λ word. word < 2 ^ 32) v.now.words }
{
    put_word(out, 0, head_of(v));
    let at = match v.time {
        None => 8,
        Some(time) => {
            put_word(out, 8, time);
            16
        }
    };
    put_half(out, at, op_word(v));
    let words = v.words.as_slice();
    put_halves(out, at + 4, words);
    let size = at + 4 + 4 * words.len();
    if size % 8 == 0 {
        size
    } else {
        put_half(out, size, 0);
        size + 4
    }
}

/// Writes the canonical spelling, whose size is rounded up to words, and returns that size.
///
/// What stands in `out` behind it isn't told.
pub fn encode_control(v: &Control, out: &mut [u8; 80]) -> usize
    requires { FitsControl v.now }
    ensures size { result
        ≡ wire_size_of (control_size (time_bytes v.now.time) (length v.now.words)) }
    ensures spells { SpellsControl v.now (take result out.new) }
    ensures plain { IsTrue (control_plain (take result out.new)) }
{
    spell(v, out)
}

/// The bytes of the time that word 0 announces.
fn told_time(first: u64) -> usize
    ensures { result ≡ 8 * field first 30 30 }
{
    8 * Word(first).field(30, 30) as usize
}

/// The words that word 0 announces, at most 15.
fn told_count(first: u64) -> usize
    ensures { result ≡ field first 23 20 }
{
    Word(first).field(23, 20) as usize
}

fn size_of(time: usize, count: usize) -> usize
    requires time { time ≤ 8 }
    requires count { count ≤ 15 }
    ensures { result ≡ control_size time count }
{
    12 + time + 4 * count
}

fn rounded(size: usize) -> usize
    requires { size ≤ 80 }
    ensures { result ≡ wire_size_of size }
{
    (size + 7) / 8 * 8
}

/// Whether the payload has one of the two sizes that its first word announces.
pub fn is_control(b: &[u8]) -> bool
    ensures sized { result ≡ control_sized b.now }
    ensures long { IsTrue result →
        control_size (told_time b.now) (told_count b.now) ≤ length b.now }
{
    if b.len() < 12 {
        return false;
    }
    let first = word_at(b, 0);
    let time = told_time(first);
    let size = size_of(time, told_count(first));
    b.len() == size || b.len() == rounded(size)
}

/// Whether a payload of a good size has zero reserved bits, the rounded size, and a zero rest.
pub fn is_plain_control(b: &[u8]) -> bool
    requires { IsTrue (control_sized b.now) }
    ensures { result ≡ control_plain b.now }
{
    let first = word_at(b, 0);
    let time = told_time(first);
    let size = size_of(time, told_count(first));
    Word(first).field(63, 48) == 0
        && Word(half_at(b, 8 + time) as u64).field(29, 28) == 0
        && b.len() == rounded(size)
        && (b.len() == size || half_at(b, size) == 0)
}

fn read(b: &[u8]) -> Result<Control, MsgFault>
    ensures { result ≡ control_read b.now }
{
    if !is_control(b) {
        return Err(MsgFault::BadControlLength);
    }
    let first = word_at(b, 0);
    let time = told_time(first);
    let count = told_count(first);
    let head = Word(first);
    let op = Word(half_at(b, 8 + time) as u64);
    Ok(Control {
        src: Epid(head.field(47, 32) as u16),
        ack: head.field(31, 31) == 1,
        time: time_of(b, first),
        seq: head.field(29, 24) as u8,
        src_port: head.field(19, 10) as u16,
        dst_port: head.field(9, 0) as u16,
        status: status_of(op.field(31, 30) as u8),
        op: op_of(op.field(27, 24) as u8),
        enables: op.field(23, 20) as u8,
        addr: op.field(19, 0) as u32,
        words: words_of(b, 12 + time, count),
    })
}

/// The control request or acknowledgement that the payload spells, at either size.
pub fn decode_control(b: &[u8]) -> Result<Control, MsgFault>
    ensures reads { IfOk result (λ c. SpellsControl c b.now) }
    ensures accepts { (c : Control) → SpellsControl c b.now → result ≡ Ok c }
    ensures refuses { IsErrOf result MsgFault.BadControlLength ↔ SpellsNoControl b.now }
    ensures exact { result ≡ control_read b.now }
{
    read(b)
}
