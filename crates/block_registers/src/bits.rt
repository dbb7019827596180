ghost use Rattle.std.specs.Prelude.{◌≡◌, ◌==◌, ◌<◌, ℕ, if◌then◌else◌};
ghost use Rattle.std.specs.Int.{bit_at};
ghost use Rattle.block_registers.specs.Registers.{enabled_bits, merged};

/// The bits of the enabled bytes of a word: bit j of `enables` stands for bits 8j to 8j + 7.
#[tactic(auto, unfolding(crate::specs::Registers::enabled_bits))]
pub fn enabled_bits_of(enables: u8) -> u32
    ensures { result ≡ enabled_bits enables }
{
    bit(enables, 0) * 0xff
        + bit(enables, 1) * 0xff00
        + bit(enables, 2) * 0xff_0000
        + bit(enables, 3) * 0xff00_0000
}

#[tactic(auto, using(std::proofs::lemmas::Nat::Bits::shr_and_one))]
fn bit(bits: u8, place: u32) -> u32
    requires { place < 8 }
    ensures { result ≡ bit_at bits place }
{
    ((bits >> place) & 1) as u32
}

/// The word with the bits of `gate` taken from the value.
#[tactic(auto, unfolding(crate::specs::Registers::merged))]
pub fn merged_of(word: u32, value: u32, gate: u32) -> u32
    ensures value { result ≡ merged word value gate }
    ensures bits { (k : ℕ) → k < 32 → bit_at result k ≡ (if bit_at gate k == 1 then bit_at value k
        else bit_at word k) }
{
    (value & gate) | (word & !gate)
}
