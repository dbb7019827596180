ghost use Rattle.std.specs.Prelude.{◌≡◌, ◌+◌, ◌-◌, ◌^◌, ◌<◌, ◌≤◌, min};

use std::marker::Model;
use std::sync::ledger::{Blank, Book, Ledger, Share};

/// How many times an edge or a block was applied to a value, as the ledger's only counter.
///
/// The ledger's total is the number of ticks; the count is that total, and stays at 2^64 - 1.
#[derive(Drop)]
pub struct Steps<L: Ledger> {
    book: Book<L>,
    share: Share<L>,
    count: u64,
}

impl<L: Ledger> Model for Steps<L> {
    ghost use Rattle.std.specs.Prelude.{ℕ, ◌≡◌, ◌-◌, ◌^◌, ◌<◌, min};

    ghost Value = { ℕ };

    ghost view = { λ steps. steps.count };

    ghost invariant = { λ steps. (0 < steps.share.parts) × (steps.count ≡ min steps.book.total
        (2 ^ 64 - 1)) };
}

impl<L: Ledger> Steps<L> {
    /// A counter of the blank's ledger, at 0.
    pub fn open(blank: Blank) -> Steps<L>
        requires name { blank.name ≡ L.name }
        requires parts { blank.parts ≡ L.parts }
        requires some { 0 < blank.parts }
        ensures { result ≡ 0 }
    {
        let (book, share) = blank.open::<L>();
        Steps {
            book,
            share,
            count: 0,
        }
    }

    /// Counts one application.
    pub fn tick(&mut self)
        ensures count { self.new ≡ min (self.old + 1) (2 ^ 64 - 1) }
        ensures rises { self.old ≤ self.new }
    {
        self.book.add(&mut self.share, 1);
        self.count = self.count.saturating_add(1);
    }

    /// The count.
    pub fn count(&self) -> u64
        ensures { result ≡ self.now }
    {
        self.count
    }
}
