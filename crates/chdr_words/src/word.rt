ghost use Rattle.std.specs.Prelude.{◌≡◌, ◌<◌, ◌≤◌, ◌+◌, ◌-◌, ◌^◌};
ghost use Rattle.std.specs.Int.{w64, from_le_bytes, to_le_bytes};
ghost use Rattle.chdr_words.specs.Field.{field, with_field};

/// A word of 64 bits; on the wire it is its eight bytes, least first.
#[derive(Clone, Copy, Debug, PartialEq, Eq)]
pub struct Word(pub u64);

impl Word {
    /// The number that the bits `hi` down to `lo` spell.
    pub fn field(self, hi: u8, lo: u8) -> u64
        requires order { lo ≤ hi }
        requires within { hi ≤ 63 }
        ensures { result ≡ field self.0 hi lo }
    {
        let above = self.0 >> lo;
        let width = hi - lo + 1;
        if width == 64 {
            above
        } else {
            above % (1 << width)
        }
    }

    /// The word with `value` in the bits `hi` down to `lo`; the other bits stay.
    pub fn with_field(self, hi: u8, lo: u8, value: u64) -> Word
        requires order { lo ≤ hi }
        requires within { hi ≤ 63 }
        requires fits { value < 2 ^ (hi + 1 - lo) }
        ensures { result.0 ≡ with_field self.0 hi lo value }
    {
        let old = self.field(hi, lo);
        Word(self.0 - (old << lo) + (value << lo))
    }

    /// The bytes on the wire.
    pub fn to_le(self) -> [u8; 8]
        ensures { result ≡ to_le_bytes w64 self.0 }
    {
        self.0.to_le_bytes()
    }

    /// The word that eight bytes of the wire spell.
    pub fn from_le(bytes: [u8; 8]) -> Word
        ensures { result.0 ≡ from_le_bytes w64 bytes }
    {
        Word(u64::from_le_bytes(bytes))
    }
}
