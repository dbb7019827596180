ghost use Rattle.std.specs.Prelude.{◌≡◌, ◌==◌, ◌<◌, [], ◌∷◌, ◌++◌, length};

use std::marker::Model;

/// At most 15 words of 32 bits, which contracts see as a list; no call takes memory.
#[derive(Debug, Drop)]
pub struct Words15 {
    words: [u32; 15],
    len: usize,
}

impl Model for Words15 {
    ghost use Rattle.std.specs.Prelude.{List, ℕ, ◌≤◌, take};

    ghost Value = { List ℕ };

    ghost view = { λ list. take list.len list.words };

    ghost invariant = { λ list. list.len ≤ 15 };
}

impl Words15 {
    pub fn new() -> Words15
        ensures { result ≡ [] }
    {
        Words15 {
            words: [0; 15],
            len: 0,
        }
    }

    pub fn len(&self) -> usize
        ensures { result ≡ length self.now }
    {
        self.len
    }

    pub fn is_empty(&self) -> bool
        ensures { result ≡ (length self.now == 0) }
    {
        self.len == 0
    }

    pub fn as_slice(&self) -> &[u32]
        ensures { result.now ≡ self.now }
    {
        &self.words[..self.len]
    }

    /// An equal list; it takes no memory.
    pub fn copy(&self) -> Words15
        ensures { result ≡ self.now }
    {
        Words15 {
            words: self.words,
            len: self.len,
        }
    }

    pub fn push(&mut self, item: u32)
        requires { length self.old < 15 }
        ensures { self.new ≡ self.old ++ item ∷ [] }
    {
        self.words[self.len] = item;
        self.len += 1;
    }
}

impl PartialEq for Words15 {
    ghost use Rattle.std.specs.Prelude.{nat_eq};
    ghost use Rattle.std.specs.Cmp.{nat_eq_equiv, partial_equiv_from_equiv};
    ghost use Rattle.std.specs.Cmp.Lexicographic.{pointwise, lists_per};

    ghost eq = { pointwise nat_eq };

    ghost laws = { lists_per (partial_equiv_from_equiv nat_eq_equiv) };

    fn eq(&self, other: &Words15) -> bool {
        self.as_slice() == other.as_slice()
    }
}

impl Eq for Words15 {
    ghost use Rattle.std.specs.Cmp.{nat_eq_equiv};
    ghost use Rattle.std.specs.Cmp.Lexicographic.{lists_equiv};

    ghost laws = { lists_equiv nat_eq_equiv };
}
