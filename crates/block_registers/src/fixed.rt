ghost use Rattle.std.specs.Prelude.{◌≡◌, ◌<◌, ◌^◌, ℕ, length, map, slice_index};
ghost use Rattle.chdr_words.specs.Control.{FitsControl};
ghost use Rattle.block_registers.specs.Operations.{Fixed, answer};

use crate::RegisterBank;
use crate::answer::acknowledge;
use crate::operation::operate_on;
use chdr_words::{Control, CtrlOp, Epid};

/// Words that are only read: as a bank, all their masks are 0.
#[derive(Drop)]
struct FixedWords<'a> {
    words: &'a [u32],
    ghost short: { length words.now < 2 ^ 32 },
    ghost small: { (i : ℕ) → slice_index words.now i < 2 ^ 32 },
}

impl RegisterBank for FixedWords<'_> {
    ghost words = { λ fixed. fixed.words.now };

    ghost masks = { λ fixed. map (λ _. 0) fixed.words.now };

    fn len(&self) -> u32 {
        self.words.len() as u32
    }

    fn read(&self, addr: u32) -> Option<u32> {
        if addr % 4 == 0 {
            self.words.get((addr / 4) as usize).copied()
        } else {
            None
        }
    }

    fn write(&mut self, addr: u32, _value: u32, _enables: u8) -> bool {
        self.read(addr).is_some()
    }
}

/// What the endpoint `me` answers at a port of fixed words, where every write gives CMDERR.
#[tactic(auto, unfolding(crate::specs::Operations::outcome, crate::specs::Operations::accepts))]
pub fn operate_fixed(me: Epid, words: &[u32], request: &Control) -> Control
    requires fits { FitsControl request.now }
    requires short { length words.now < 2 ^ 32 }
    ensures { result ≡ answer me (Fixed words.now) request.now }
{
    let outcome = match request.op {
        CtrlOp::Write | CtrlOp::ReadWrite | CtrlOp::BlockWrite => None,
        CtrlOp::Sleep
        | CtrlOp::Read
        | CtrlOp::BlockRead
        | CtrlOp::Poll
        | CtrlOp::Other(_)
        | CtrlOp::User(_) => operate_on(&mut FixedWords { words }, request),
    };
    acknowledge(me, request, outcome)
}
