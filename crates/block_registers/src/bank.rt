ghost use Rattle.std.specs.Prelude.{◌≡◌, ℕ, List, length};
ghost use Rattle.block_registers.specs.Registers.{is_register, register, written_one, change};

/// Registers of 32 bits that a device offers, each with a mask of the bits that can be written, so
/// that there are as many masks as words.
///
/// Register i stands at the address 4i. A bank whose word changes by itself, as a counter does, is
/// no bank: its words change by `write` alone.
pub trait RegisterBank: Drop {
    ghost words: { Self → List ℕ };

    ghost masks: { Self → List ℕ };

    /// How many registers there are.
    fn len(&self) -> u32
        ensures words { result ≡ length (words self.now) }
        ensures masks { length (masks self.now) ≡ length (words self.now) };

    /// The word at an address; none if no register stands there.
    fn read(&self, addr: u32) -> Option<u32>
        ensures { result ≡ register (words self.now) addr };

    /// Writes the bits that the mask and the enabled bytes allow; false if no register stands there.
    fn write(&mut self, addr: u32, value: u32, enables: u8) -> bool
        ensures found { result ≡ is_register (words self.old) addr }
        ensures words { words self.new ≡
            written_one (masks self.old) (words self.old) (change addr value enables) }
        ensures masks { masks self.new ≡ masks self.old }
        ensures equal { length (masks self.old) ≡ length (words self.old) };
}

/// A bank that the caller has boxed.
pub type Bank = Box<dyn RegisterBank + Send>;

impl RegisterBank for Bank {
    ghost words = { λ bank. (RegisterBank-box bank).words bank.value };

    ghost masks = { λ bank. (RegisterBank-box bank).masks bank.value };

    fn len(&self) -> u32 {
        (**self).len()
    }

    fn read(&self, addr: u32) -> Option<u32> {
        (**self).read(addr)
    }

    fn write(&mut self, addr: u32, value: u32, enables: u8) -> bool {
        (**self).write(addr, value, enables)
    }
}
