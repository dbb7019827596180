ghost use Rattle.std.specs.Prelude.{◌≡◌, ◌↔◌, ◌+◌, ◌≤◌, ◌++◌, [], decimal, length, IfOk, IsTrue};
ghost use Rattle.script_lines.specs.Page.{HasRoom};

use itoa::Buffer;
use rf_base::Memory;
use std::alloc::Global;
use std::marker::Model;

/// How many bytes a page holds.
pub const PAGE: usize = 8192;

/// How many bytes a line has at most.
pub const LINE: usize = 512;

/// A part of a text on its way to a sink. Its memory is taken when it is made.
#[derive(Debug, Drop)]
pub struct Page {
    bytes: Vec<u8>,
}

impl Model for Page {
    ghost use Rattle.std.specs.Prelude.{List, ℕ, ◌≤◌, vec_len, vec_capacity};
    ghost use Rattle.script_lines.specs.Page.{page_size};

    ghost Value = { List ℕ };

    ghost view = { λ page. page.bytes.items };

    ghost invariant = { λ page. (vec_len page.bytes ≤ page_size) × (page_size ≤ vec_capacity page.bytes) };
}

impl Page {
    pub fn new(alloc: Global) -> Result<Page, Memory>
        ensures { IfOk result (λ made. made ≡ []) }
    {
        let bytes = Vec::with_capacity(alloc, PAGE)?;
        Ok(Page { bytes })
    }

    pub fn as_bytes(&self) -> &[u8]
        ensures { result.now ≡ self.now }
    {
        self.bytes.as_slice()
    }

    /// Whether this number of bytes more fits.
    pub fn has_room(&self, more: usize) -> bool
        ensures { IsTrue result ↔ HasRoom self.now more }
    {
        more <= PAGE - self.bytes.len()
    }

    /// Empties it, and keeps its memory.
    pub fn clear(&mut self)
        ensures { self.new ≡ [] }
    {
        self.bytes.clear();
    }

    /// Appends a text.
    pub fn put(&mut self, text: &[u8])
        requires { HasRoom self.old (length text.now) }
        ensures text { self.new ≡ self.old ++ text.now }
        ensures short { length self.new ≡ length self.old + length text.now }
    {
        if self.bytes.extend_from_slice(text).is_err() {
            unreachable!();
        }
    }

    /// Appends a number in decimal.
    pub fn put_number(&mut self, number: u64)
        requires { HasRoom self.old 20 }
        ensures text { self.new ≡ self.old ++ decimal number }
        ensures short { length self.new ≤ length self.old + 20 }
    {
        let mut buffer = Buffer::new();
        self.put(buffer.format(number).as_bytes());
    }

    /// Appends a text and a number behind it.
    pub fn put_field(&mut self, name: &[u8], number: u64)
        requires { HasRoom self.old (length name.now + 20) }
        ensures text { self.new ≡ self.old ++ (name.now ++ decimal number) }
        ensures short { length self.new ≤ length self.old + (length name.now + 20) }
    {
        self.put(name);
        self.put_number(number);
    }

    /// Appends two texts, each with a number behind it.
    pub fn put_pair(&mut self, name: &[u8], number: u64, then: &[u8], next: u64)
        requires { HasRoom self.old (length name.now + length then.now + 40) }
        ensures text { self.new ≡
            self.old ++ (name.now ++ (decimal number ++ (then.now ++ decimal next))) }
        ensures short { length self.new ≤ length self.old + (length name.now + length then.now + 40) }
    {
        self.put_field(name, number);
        self.put_field(then, next);
    }
}
