ghost use Rattle.std.specs.Prelude.{◌≡◌, ◌<◌, ℕ, List, length, Option, Some, None, IfOk, replicate, slice_set, option_map, vec_len, is_some};
ghost use Rattle.chdr_words.specs.Control.{FitsControl};
ghost use Rattle.block_registers.specs.Registers.{Registers, registers};
ghost use Rattle.block_registers.specs.Operations.{answer};
ghost use Rattle.block_registers.specs.Slots.{registers_in, registers_of, bank_at, place_of, slots_after};

use crate::slots::{operate_in, put_in, take_from};
use crate::{Bank, RegisterBank};
use chdr_words::{Control, Epid};
use rf_base::Memory;
use std::alloc::Global;

/// Slots for banks, by the ports that they serve.
pub trait RegisterSlots: Drop {
    /// The registers in each slot, if it has a bank.
    ghost slots: { Self → List (Option Registers) };

    /// How many slots there are.
    ghost size: { ℕ };

    /// Carries a request out on the bank of a slot, and acknowledges it as `me`; it takes no memory.
    fn operate(&mut self, me: Epid, slot: Option<u16>, request: &Control) -> Control
        requires { FitsControl request.now }
        ensures answer { result ≡ answer me (place_of (slots self.old) slot) request.now }
        ensures slots { slots self.new ≡ slots_after (slots self.old) slot request.now }
        ensures size { length (slots self.old) ≡ size };

    /// Takes the bank out of a slot and drops it; false if the slot is empty or isn't there.
    fn discard(&mut self, port: u16) -> bool
        ensures found { result ≡ is_some (bank_at (slots self.old) port) }
        ensures slots { slots self.new ≡ slice_set (slots self.old) port None }
        ensures size { length (slots self.old) ≡ size };
}

/// Sixteen slots, for the ports 0 to 15.
#[derive(Drop)]
pub struct Banks {
    slots: Vec<Option<Bank>>,
    ghost sixteen: { vec_len slots ≡ 16 },
}

impl Banks {
    /// Sixteen empty slots.
    #[tactic(auto, unfolding(crate::specs::Slots::registers_in))]
    pub fn new(alloc: Global) -> Result<Banks, Memory>
        ensures { IfOk result (λ banks. ⟦<Banks as RegisterSlots>⟧.slots banks ≡ replicate 16
            None) }
    {
        let mut slots = Vec::with_capacity(alloc, 16)?;
        for _count in 0..16u8 {
            slots.push(None)?;
        }
        Ok(Banks { slots })
    }

    /// Puts a bank into a slot, and gives the one that was there.
    #[tactic(auto, using(crate::proofs::SlotLemmas::size_lemmas))]
    pub fn load(&mut self, port: u16, bank: Bank) -> Option<Bank>
        requires { port < 16 }
        ensures given { option_map (λ given. registers (words given) (masks given)) result ≡
            bank_at (⟦<Banks as RegisterSlots>⟧.slots self.old) port }
        ensures slots { ⟦<Banks as RegisterSlots>⟧.slots self.new ≡
            slice_set (⟦<Banks as RegisterSlots>⟧.slots self.old) port
            (Some (registers (words bank) (masks bank))) }
        ensures size { length (⟦<Banks as RegisterSlots>⟧.slots self.old) ≡ 16 }
    {
        put_in(&mut self.slots, port as usize, bank)
    }

    /// Takes the bank out of a slot; none if the slot is empty or isn't there.
    #[tactic(auto, using(crate::proofs::SlotLemmas::size_lemmas))]
    pub fn unload(&mut self, port: u16) -> Option<Bank>
        ensures given { option_map (λ given. registers (words given) (masks given)) result ≡
            bank_at (⟦<Banks as RegisterSlots>⟧.slots self.old) port }
        ensures slots { ⟦<Banks as RegisterSlots>⟧.slots self.new ≡
            slice_set (⟦<Banks as RegisterSlots>⟧.slots self.old) port None }
        ensures size { length (⟦<Banks as RegisterSlots>⟧.slots self.old) ≡ 16 }
    {
        take_from(&mut self.slots, port as usize)
    }
}

#[tactic(auto, using(crate::proofs::SlotLemmas::size_lemmas))]
impl RegisterSlots for Banks {
    ghost slots = { λ banks. registers_in (λ bank. (RegisterBank-box bank).words bank.value) (λ
        bank. (RegisterBank-box bank).masks bank.value) banks.slots.items };

    ghost size = { 16 };

    fn operate(&mut self, me: Epid, slot: Option<u16>, request: &Control) -> Control {
        operate_in(&mut self.slots, me, slot, request)
    }

    fn discard(&mut self, port: u16) -> bool {
        self.unload(port).is_some()
    }
}
