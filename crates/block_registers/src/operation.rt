ghost use Rattle.std.specs.Prelude.{◌≡◌, ◌<◌, ◌≤◌, ◌^◌, ◌∷◌, ◌&&◌, [], ℕ, Option, Some, None, if◌then◌else◌, nat_lt, length};
ghost use Rattle.chdr_words.specs.Control.{FitsControl};
ghost use Rattle.block_registers.specs.Registers.{registers, is_register, written};
ghost use Rattle.block_registers.specs.Operations.{Bank, are_registers, words_from, changes, first_change, outcome, accepted};

use crate::RegisterBank;
use chdr_words::{Control, CtrlOp, Words15};

/// Carries a request out on a bank; none stands for CMDERR, which changes nothing.
#[tactic(auto, unfolding(crate::specs::Operations::outcome, crate::specs::Operations::accepted, crate::specs::Operations::accepts))]
pub fn operate_on<B: RegisterBank>(bank: &mut B, request: &Control) -> Option<Words15>
    requires { FitsControl request.now }
    ensures answer { result ≡
        outcome (Bank (registers (B.words bank.old) (B.masks bank.old))) request.now }
    ensures words { B.words bank.new ≡
        written (B.masks bank.old) (B.words bank.old)
        (accepted (Bank (registers (B.words bank.old) (B.masks bank.old))) request.now) }
    ensures masks { B.masks bank.new ≡ B.masks bank.old }
{
    match request.op {
        CtrlOp::Sleep => Some(Words15::new()),
        CtrlOp::Write => {
            if write_first(bank, request) {
                Some(Words15::new())
            } else {
                None
            }
        }
        CtrlOp::Read => bank.read(request.addr).map(one),
        CtrlOp::ReadWrite => {
            let old = bank.read(request.addr)?;
            if write_first(bank, request) {
                Some(one(old))
            } else {
                None
            }
        }
        CtrlOp::BlockWrite => {
            if write_block(bank, request) {
                Some(Words15::new())
            } else {
                None
            }
        }
        CtrlOp::BlockRead => {
            if request.words.is_empty() {
                None
            } else {
                read_block(bank, request.addr, request.words.len() as u32)
            }
        }
        CtrlOp::Poll | CtrlOp::Other(_) | CtrlOp::User(_) => None,
    }
}

fn one(word: u32) -> Words15
    ensures { result ≡ word ∷ [] }
{
    let mut words = Words15::new();
    words.push(word);
    words
}

/// Writes the first word of a request; false, and no change, where there is none or no register.
fn write_first<B: RegisterBank>(bank: &mut B, request: &Control) -> bool
    ensures found { result ≡ (nat_lt 0 (length request.now.words) && is_register (B.words
        bank.old) request.now.addr) }
    ensures words { B.words bank.new ≡ written (B.masks bank.old) (B.words bank.old) (if result
        then first_change request.now.enables request.now.addr request.now.words ∷ [] else []) }
    ensures masks { B.masks bank.new ≡ B.masks bank.old }
{
    let values = request.words.as_slice();
    if values.is_empty() {
        return false;
    }
    bank.write(request.addr, values[0], request.enables)
}

/// Writes all words of a request; false, and no change, where there is none or a register is missing.
fn write_block<B: RegisterBank>(bank: &mut B, request: &Control) -> bool
    requires { FitsControl request.now }
    ensures found { result ≡ (nat_lt 0 (length request.now.words) && are_registers (B.words
        bank.old) request.now.addr (length request.now.words)) }
    ensures words { B.words bank.new ≡ written (B.masks bank.old) (B.words bank.old) (if result
        then changes request.now.enables request.now.addr request.now.words (length
        request.now.words) else []) }
    ensures masks { B.masks bank.new ≡ B.masks bank.old }
{
    let values = request.words.as_slice();
    let count = values.len() as u32;
    if count == 0 || !has_block(bank, request.addr, count) {
        return false;
    }
    write_values(bank, request.addr, values, request.enables);
    true
}

fn write_values<B: RegisterBank>(bank: &mut B, addr: u32, values: &[u32], enables: u8)
    requires low { addr < 2 ^ 20 }
    requires short { length values.now ≤ 15 }
    ensures words { B.words bank.new ≡ written (B.masks bank.old) (B.words bank.old) (changes
        enables addr values.now (length values.now)) }
    ensures masks { B.masks bank.new ≡ B.masks bank.old }
{
    for k in 0..values.len() {
        bank.write(addr + 4 * k as u32, values[k], enables);
    }
}

fn has_block<B: RegisterBank>(bank: &B, addr: u32, count: u32) -> bool
    requires low { addr < 2 ^ 20 }
    requires short { count ≤ 15 }
    ensures { result ≡ are_registers (B.words bank.now) addr count }
{
    for k in 0..count {
        if bank.read(addr + 4 * k).is_none() {
            return false;
        }
    }
    true
}

fn read_block<B: RegisterBank>(bank: &B, addr: u32, count: u32) -> Option<Words15>
    requires low { addr < 2 ^ 20 }
    requires short { count ≤ 15 }
    ensures { result ≡ (if are_registers (B.words bank.now) addr count then Some (words_from
        (B.words bank.now) addr count) else None) }
{
    let mut words = Words15::new();
    for k in 0..count {
        words.push(bank.read(addr + 4 * k)?);
    }
    Some(words)
}
