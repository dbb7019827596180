ghost use Rattle.std.specs.Prelude.{◌≡◌, ◌<◌, length, slice_set, Option, option_map};
ghost use Rattle.chdr_words.specs.Control.{FitsControl};
ghost use Rattle.block_registers.specs.Operations.{answer, outcome, registers_after};
ghost use Rattle.block_registers.specs.Slots.{registers_of, registers_in, bank_at, place_of_bank, place_of, slots_after};

use crate::RegisterBank;
use crate::answer::acknowledge;
use crate::operation::operate_on;
use chdr_words::{Control, Epid, Words15};

/// Carries a request out on the bank of a slot, and acknowledges it.
#[tactic(auto, unfolding(crate::specs::Slots::place_of, crate::specs::Slots::slots_after, crate::specs::Operations::outcome, crate::specs::Operations::accepts))]
pub fn operate_in<B: RegisterBank>(
    slots: &mut [Option<B>],
    me: Epid,
    slot: Option<u16>,
    request: &Control,
) -> Control
    requires { FitsControl request.now }
    ensures answer { result ≡ answer me (place_of (registers_in B.words B.masks slots.old) slot)
        request.now }
    ensures slots { registers_in B.words B.masks slots.new ≡ slots_after (registers_in B.words
        B.masks slots.old) slot request.now }
{
    let outcome = match slot {
        Some(port) => operate_at(slots, port as usize, request),
        None => None,
    };
    acknowledge(me, request, outcome)
}

/// The words that the bank of a slot returns; none stands for CMDERR.
#[tactic(auto, using(crate::proofs::SlotLemmas::slot_lemmas))]
fn operate_at<B: RegisterBank>(
    slots: &mut [Option<B>],
    port: usize,
    request: &Control,
) -> Option<Words15>
    requires { FitsControl request.now }
    ensures answer { result ≡ outcome (place_of_bank (bank_at (registers_in B.words B.masks
        slots.old) port)) request.now }
    ensures slots { registers_in B.words B.masks slots.new ≡ slice_set (registers_in B.words
        B.masks slots.old) port (option_map (λ bank. registers_after bank request.now) (bank_at
        (registers_in B.words B.masks slots.old) port)) }
{
    if port >= slots.len() {
        return None;
    }
    operate_slot(&mut slots[port], request)
}

#[tactic(auto, unfolding(crate::specs::Operations::registers_after, crate::specs::Operations::outcome, crate::specs::Operations::accepts))]
fn operate_slot<B: RegisterBank>(slot: &mut Option<B>, request: &Control) -> Option<Words15>
    requires { FitsControl request.now }
    ensures answer { result ≡ outcome (place_of_bank (option_map (registers_of B.words B.masks)
        slot.old)) request.now }
    ensures slot { option_map (registers_of B.words B.masks) slot.new ≡ option_map (λ bank.
        registers_after bank request.now) (option_map (registers_of B.words B.masks) slot.old) }
{
    match slot {
        Some(bank) => operate_on(bank, request),
        None => None,
    }
}

/// Puts a bank into a slot, and gives the one that was there.
#[tactic(auto, using(crate::proofs::SlotLemmas::slot_lemmas))]
pub fn put_in<B: RegisterBank>(slots: &mut [Option<B>], port: usize, bank: B) -> Option<B>
    requires { port < length slots.old }
    ensures given { option_map (registers_of B.words B.masks) result ≡ bank_at (registers_in
        B.words B.masks slots.old) port }
    ensures slots { registers_in B.words B.masks slots.new ≡ slice_set (registers_in B.words
        B.masks slots.old) port (Some (registers_of B.words B.masks bank)) }
{
    slots[port].replace(bank)
}

/// Takes the bank out of a slot; none where the slot is empty or isn't there.
#[tactic(auto, using(crate::proofs::SlotLemmas::slot_lemmas))]
pub fn take_from<B: RegisterBank>(slots: &mut [Option<B>], port: usize) -> Option<B>
    ensures given { option_map (registers_of B.words B.masks) result ≡ bank_at (registers_in
        B.words B.masks slots.old) port }
    ensures slots { registers_in B.words B.masks slots.new ≡ slice_set (registers_in B.words
        B.masks slots.old) port None }
{
    if port >= slots.len() {
        return None;
    }
    slots[port].take()
}
