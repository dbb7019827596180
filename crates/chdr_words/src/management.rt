ghost use Rattle.std.specs.Prelude.{◌≡◌, ◌↔◌, ◌<◌, ◌≤◌, ◌^◌, ◌+◌, ◌==◌, ◌||◌, if◌then◌else◌, ◌++◌, length, All, IfOk, IsErrOf, OnOk, IsTrue};
ghost use Rattle.std.specs.List.{sum_by};
ghost use Rattle.chdr_words.specs.Field.{words_bytes};
ghost use Rattle.chdr_words.specs.Management.{FitsHop, FitsManagement, FitsOp, SpellsManagement, SpellsNoManagement, hop_words, are_hops, hops_of, management_formed, management_plain, management_read, management_words, op_of, op_word, words_of};
ghost use Rattle.chdr_words.specs.Reads.{Reads};

use crate::bytes::word_at;
use crate::{Bytes, Epid, Hop, HopList, MsgFault, Word};
use rf_base::{Copyable, Items, Memory};
use std::alloc::Global;

/// One operation of a hop: its code, and a payload below 2^48.
///
///      63                  16 15      8 7         0
///     +----------------------+---------+-----------+
///     | payload              | code    | pending   |
///     +----------------------+---------+-----------+
///
/// Rule: docs/wire-format.md, "Operations".
#[derive(Clone, Copy, Debug, PartialEq, Eq)]
pub struct MgmtOp {
    pub payload: u64,
    pub code: u8,
}

impl Copyable for MgmtOp {
    fn copy(&self) -> Result<MgmtOp, Memory> {
        Ok(*self)
    }
}

/// A management payload: the hops that nodes are still to perform, the next one first.
///
///      63     48 47   45 44      26 25            16 15    0
///     +---------+-------+----------+----------------+-------+
///     | version | width | free     | number of hops | src   |
///     +---------+-------+----------+----------------+-------+
///     | the operations of each hop                          |
///     +-----------------------------------------------------+
///
/// Rule: docs/wire-format.md, "Management".
#[derive(Debug, Drop, PartialEq, Eq)]
pub struct Management {
    pub version: u16,
    /// The code of the CHDR width, below 8; 0 stands for 64 bits.
    pub width: u8,
    pub src: Epid,
    pub hops: HopList,
}

impl Copyable for Management {
    fn copy(&self) -> Result<Management, Memory> {
        Ok(Management {
            version: self.version,
            width: self.width,
            src: self.src,
            hops: self.hops.copy()?,
        })
    }
}

impl MgmtOp {
    /// Whether the payload fits its bits.
    pub fn fits(self) -> bool
        ensures { IsTrue result ↔ FitsOp self }
    {
        self.payload < 1 << 48
    }
}

fn each_op_fits(ops: &[MgmtOp]) -> bool
    ensures { IsTrue result ↔ All FitsOp ops.now }
{
    ops.iter().all(|op| op.fits())
}

fn fits_hop(hop: &Hop) -> bool
    ensures { IsTrue result ↔ FitsHop hop.now }
{
    1 <= hop.len() && hop.len() <= 256 && each_op_fits(hop.as_slice())
}

fn each_hop_fits(hops: &[Hop]) -> bool
    ensures { IsTrue result ↔ All FitsHop hops.now }
{
    hops.iter().all(|hop| fits_hop(hop))
}

impl Management {
    /// Whether each field fits its bits, and each hop has 1 to 256 operations.
    pub fn fits(&self) -> bool
        ensures { IsTrue result ↔ FitsManagement self.now }
    {
        self.width < 1 << 3 && self.hops.len() <= 1023 && each_hop_fits(self.hops.as_slice())
    }
}

fn op_of(word: u64) -> MgmtOp
    ensures { result ≡ op_of word }
{
    let word = Word(word);
    MgmtOp {
        payload: word.field(63, 16),
        code: word.field(15, 8) as u8,
    }
}

/// Whether the words behind word 0 are whole hops, as many as word 0 says.
pub fn is_management(b: &[u8]) -> bool
    ensures formed { result ≡ management_formed b.now }
    ensures long { IsTrue result → 8 ≤ length b.now }
{
    if b.len() < 8 || b.len() % 8 != 0 {
        return false;
    }
    let count = Word(word_at(b, 0)).field(25, 16) as usize;
    hops_run_down(b, count)
}

/// The operations of all hops.
pub fn op_count(hops: &[Hop]) -> usize
    requires { sum_by length hops.now < 2 ^ 64 }
    ensures { result ≡ sum_by length hops.now }
{
    let mut count = 0;
    for hop in hops {
        count += hop.len();
    }
    count
}

/// Whether the reserved bits of a management payload are zero.
pub fn is_plain_management(b: &[u8]) -> bool
    requires { 8 ≤ length b.now }
    ensures { result ≡ management_plain b.now }
{
    Word(word_at(b, 0)).field(44, 26) == 0
}

fn follows(pending: u64, next: u64) -> bool
    requires { next < 2 ^ 8 }
    ensures { result ≡ (pending == 0 || pending == next + 1) }
{
    pending == 0 || pending == next + 1
}

fn ends(pending: u64) -> usize
    ensures { result ≡ (if pending == 0 then 1 else 0) }
{
    if pending == 0 { 1 } else { 0 }
}

fn hops_run_down(b: &[u8], count: usize) -> bool
    requires { 8 ≤ length b.now }
    ensures { result ≡ are_hops count (words_of b.now) }
{
    let words = b.len() / 8 - 1;
    let mut pending = 0;
    let mut hops = 0;
    for k in 0..words {
        let word = word_at(b, 8 + 8 * k);
        let next = word % (1 << 8);
        if !follows(pending, next) {
            return false;
        }
        hops += ends(next);
        pending = next;
    }
    pending == 0 && hops == count
}

/// The hops of the words behind word 0; one that doesn't end with nothing pending is the last.
fn hops_of(alloc: Global, b: &[u8]) -> Result<HopList, Memory>
    requires { 8 ≤ length b.now }
    ensures { IfOk result (λ hops. hops ≡ hops_of (words_of b.now)) }
{
    let words = b.len() / 8 - 1;
    let mut hops = Items::new(alloc);
    let mut hop = Items::new(alloc);
    for k in 0..words {
        let word = word_at(b, 8 + 8 * k);
        hop.push(op_of(word))?;
        if word % (1 << 8) == 0 {
            hops.push(hop)?;
            hop = Items::new(alloc);
        }
    }
    if !hop.is_empty() {
        hops.push(hop)?;
    }
    Ok(hops)
}

fn read(alloc: Global, b: &[u8]) -> Result<Management, MsgFault>
    ensures { Reads result (management_read b.now) }
{
    if !is_management(b) {
        return Err(MsgFault::BadManagement);
    }
    let first = Word(word_at(b, 0));
    let hops = hops_of(alloc, b)?;
    Ok(Management {
        version: first.field(63, 48) as u16,
        width: first.field(47, 45) as u8,
        src: Epid(first.field(15, 0) as u16),
        hops,
    })
}

/// The management payload that the bytes spell, all of them.
pub fn decode_management(alloc: Global, b: &[u8]) -> Result<Management, MsgFault>
    ensures reads { IfOk result (λ m. SpellsManagement m b.now) }
    ensures accepts { (m : Management) → SpellsManagement m b.now → Reads result (Ok m) }
    ensures refuses { IsErrOf result MsgFault.BadManagement → SpellsNoManagement b.now }
    ensures exact { Reads result (management_read b.now) }
{
    read(alloc, b)
}

fn word_of(op: MgmtOp, pending: u64) -> u64
    requires fits { FitsOp op }
    requires below { pending < 2 ^ 8 }
    ensures { result ≡ op_word op pending }
{
    op.payload * (1 << 16) + op.code as u64 * (1 << 8) + pending
}

fn put_hop(out: &mut Vec<u8>, hop: &[MgmtOp]) -> Result<(), Memory>
    requires { FitsHop hop.now }
    ensures { OnOk result (out.new.items ≡ out.old.items ++ words_bytes (hop_words hop.now)) }
{
    let mut pending = hop.len() as u64;
    for op in hop {
        pending -= 1;
        out.extend_from_slice(&word_of(*op, pending).to_le_bytes())?;
    }
    Ok(())
}

fn write(alloc: Global, v: &Management) -> Result<Vec<u8>, Memory>
    requires { FitsManagement v.now }
    ensures bytes { IfOk result (λ out. out.items ≡ words_bytes (management_words v.now)) }
    ensures version { v.now.version < 2 ^ 16 }
    ensures src { v.now.src.0 < 2 ^ 16 }
{
    let high = v.version as u64 * (1 << 48) + v.width as u64 * (1 << 45);
    let head = high + v.hops.len() as u64 * (1 << 16) + v.src.0 as u64;
    let mut out = Vec::new(alloc);
    out.extend_from_slice(&head.to_le_bytes())?;
    for hop in v.hops.as_slice() {
        put_hop(&mut out, hop.as_slice())?;
    }
    Ok(out)
}

/// The canonical spelling of the management payload.
pub fn encode_management(alloc: Global, v: &Management) -> Result<Bytes, Memory>
    requires { FitsManagement v.now }
    ensures spells { IfOk result (λ bytes. SpellsManagement v.now bytes) }
    ensures plain { IfOk result (λ bytes. IsTrue (management_plain bytes)) }
{
    Ok(Items::from_vec(write(alloc, v)?))
}
