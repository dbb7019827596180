ghost use Rattle.std.specs.Prelude.{◌≡◌, ◌^◌, ◌<◌, ◌/◌, Option, Some, None, if◌then◌else◌, length};
ghost use Rattle.block_registers.specs.Registers.{Registers, is_register};

use crate::RegisterBank;
use crate::bits::{enabled_bits_of, merged_of};
use chdr_words::Bytes32;
use std::marker::Model;

/// A bank of words in memory, which contracts see as its words and masks.
#[derive(Debug, Drop)]
pub struct PlainBank {
    words: Vec<u32>,
    masks: Vec<u32>,
}

impl Model for PlainBank {
    ghost use Rattle.std.specs.Prelude.{◌≡◌, ◌<◌, ◌^◌, vec_len};
    ghost use Rattle.block_registers.specs.Registers.{Registers};

    ghost Value = { Registers };

    ghost view = { λ bank. record { words = bank.words.items; masks = bank.masks.items } };

    ghost invariant = { λ bank. (vec_len bank.words ≡ vec_len bank.masks) × (vec_len bank.words <
        2 ^ 32) };
}

impl PlainBank {
    /// The bank of these words and masks; it takes no memory.
    pub fn new(words: Bytes32, masks: Bytes32) -> PlainBank
        requires equal { length words ≡ length masks }
        requires short { length words < 2 ^ 32 }
        ensures { result ≡ record { words = words; masks = masks } }
    {
        PlainBank {
            words: words.into_vec(),
            masks: masks.into_vec(),
        }
    }

    /// The number of the register at an address.
    fn place(&self, addr: u32) -> Option<usize>
        ensures { result ≡ (if is_register self.now.words addr then Some (addr / 4) else None) }
    {
        let place = (addr / 4) as usize;
        if addr % 4 == 0 && place < self.words.len() {
            Some(place)
        } else {
            None
        }
    }
}

#[tactic(auto, unfolding(crate::specs::Registers::written_one))]
impl RegisterBank for PlainBank {
    ghost words = { λ bank. bank.words };

    ghost masks = { λ bank. bank.masks };

    fn len(&self) -> u32 {
        self.words.len() as u32
    }

    fn read(&self, addr: u32) -> Option<u32> {
        let place = self.place(addr)?;
        Some(self.words[place])
    }

    fn write(&mut self, addr: u32, value: u32, enables: u8) -> bool {
        match self.place(addr) {
            Some(place) => {
                let gate = self.masks[place] & enabled_bits_of(enables);
                self.words[place] = merged_of(self.words[place], value, gate);
                true
            }
            None => false,
        }
    }
}
