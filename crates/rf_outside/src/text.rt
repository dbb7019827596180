ghost use Rattle.std.specs.Prelude.{◌≡◌, ◌++◌, [], ◌∷◌, decimal, length, OnOk, OnErr};

use itoa::Buffer;
use rf_base::Memory;
use std::alloc::Global;
use std::marker::Model;

/// Text that is put together piece by piece: the lines of a listing or a report.
///
/// A call that runs out of memory leaves what it had put before.
#[derive(Debug, Drop)]
pub struct Text {
    bytes: Vec<u8>,
}

impl Model for Text {
    ghost use Rattle.std.specs.Prelude.{List, ℕ};

    ghost Value = { List ℕ };

    ghost view = { λ t. t.bytes.items };
}

impl Text {
    pub fn new(alloc: Global) -> Text
        ensures { result ≡ [] }
    {
        Text {
            bytes: Vec::new(alloc),
        }
    }

    pub fn as_bytes(&self) -> &[u8]
        ensures { result.now ≡ self.now }
    {
        self.bytes.as_slice()
    }

    /// Empties it, and keeps its memory.
    pub fn clear(&mut self)
        ensures { self.new ≡ [] }
    {
        self.bytes.clear();
    }

    /// Appends a text.
    pub fn put(&mut self, text: &[u8]) -> Result<(), Memory>
        ensures ok { OnOk result (self.new ≡ self.old ++ text.now) }
        ensures err { OnErr result (self.new ≡ self.old) }
    {
        self.bytes.extend_from_slice(text)?;
        Ok(())
    }

    /// Appends a number in decimal.
    pub fn put_number(&mut self, number: u64) -> Result<(), Memory>
        ensures ok { OnOk result (self.new ≡ self.old ++ decimal number) }
        ensures err { OnErr result (self.new ≡ self.old) }
    {
        let mut buffer = Buffer::new();
        self.put(buffer.format(number).as_bytes())
    }

    /// Appends a text and a number behind it.
    pub fn put_field(&mut self, name: &[u8], number: u64) -> Result<(), Memory>
        ensures { OnOk result (self.new ≡ self.old ++ (name.now ++ decimal number)) }
    {
        self.put(name)?;
        self.put_number(number)
    }

    /// Appends two texts, each with a number behind it.
    pub fn put_pair(
        &mut self,
        name: &[u8],
        number: u64,
        then: &[u8],
        next: u64,
    ) -> Result<(), Memory>
        ensures { OnOk result (self.new ≡
            self.old ++ (name.now ++ (decimal number ++ (then.now ++ decimal next)))) }
    {
        self.put_field(name, number)?;
        self.put_field(then, next)
    }
}
