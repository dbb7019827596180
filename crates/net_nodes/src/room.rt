ghost use Rattle.std.specs.Prelude.{◌≡◌, ◌↔◌, ◌+◌, ◌≤◌, [], IsTrue, length, IfOk};
ghost use Rattle.std.specs.Vec.{vec_capacity};
ghost use Rattle.net_nodes.specs.Budget.{Serves, asked_by, budget};
ghost use Rattle.net_nodes.specs.Operations.{asked, asked_in};
ghost use Rattle.net_nodes.specs.Perform.{first_hop, last_hop};

use chdr_words::{Hop, Management, MgmtOp, Operation};
use rf_base::Memory;
use std::alloc::Global;
use std::marker::Model;

/// Memory for a packet's last hop with its answers; contracts see how many operations it can hold.
#[derive(Debug, Drop)]
pub struct Room {
    spare: Vec<MgmtOp>,
}

impl Model for Room {
    ghost use Rattle.std.specs.Prelude.{◌≡◌, ℕ, []};
    ghost use Rattle.std.specs.Vec.{vec_capacity};

    ghost Value = { ℕ };

    ghost view = { λ room. vec_capacity room.spare };

    ghost invariant = { λ room. room.spare.items ≡ [] };
}

impl Room {
    pub(crate) fn allocator(&self) -> Global {
        *self.spare.allocator()
    }

    /// Whether the packet has a hop besides its last, and the last has room here with the answers
    /// of the first: what `perform` asks for.
    pub fn serves(&self, m: &Management) -> bool
        ensures { IsTrue result ↔ Serves self.now m.now }
    {
        let room = self.spare.capacity();
        m.hops.len() >= 2 && last_len(m) <= room && asked_answers(m) <= room - last_len(m)
    }

    pub(crate) fn into_vec(self) -> Vec<MgmtOp>
        ensures empty { result.items ≡ [] }
        ensures room { vec_capacity result ≡ self }
    {
        let Room { spare } = self;
        spare
    }
}

fn last_len(m: &Management) -> usize
    ensures { result ≡ length (last_hop m.now) }
{
    let hops = m.hops.as_slice();
    if hops.is_empty() {
        return 0;
    }
    hops[hops.len() - 1].len()
}

/// Room for the packet's last hop with `more` answers.
pub fn reserve_answers(alloc: Global, m: &Management, more: usize) -> Result<Room, Memory>
    ensures { IfOk result (λ room. length (last_hop m.now) + more ≤ room) }
{
    let count = last_len(m).checked_add(more).ok_or(Memory)?;
    let spare = Vec::with_capacity(alloc, count)?;
    Ok(Room { spare })
}

/// How many answers the first hop of a packet asks.
pub fn asked_answers(m: &Management) -> usize
    ensures { result ≡ asked_in (first_hop m.now) }
{
    match m.hops.as_slice() {
        [] => 0,
        [first, ..] => asked_in(first.as_slice()),
    }
}

/// Whether the last hop with the answers that all hops ask has at most 256 operations: what the law
/// `performed_packets_fit` asks for.
pub fn is_within_budget(m: &Management) -> bool
    ensures { IsTrue result ↔ budget m.now ≤ 256 }
{
    let last = last_len(m);
    last <= 256 && asks_at_most(m.hops.as_slice(), 256 - last)
}

/// Whether hops ask at most this number of answers, all together.
#[tactic(auto, using(crate::proofs::HopLemmas::asked_by_more))]
fn asks_at_most(hops: &[Hop], most: usize) -> bool
    ensures { IsTrue result ↔ asked_by hops.now ≤ most }
{
    let mut left = most;
    for hop in hops {
        let asked = asked_in(hop.as_slice());
        if asked > left {
            return false;
        }
        left -= asked;
    }
    true
}

#[tactic(auto, using(crate::proofs::HopLemmas::asked_in_more))]
fn asked_in(ops: &[MgmtOp]) -> usize
    ensures { result ≡ asked_in ops.now }
{
    let mut count = 0;
    for op in ops {
        count += asked(Operation::of(*op));
    }
    count
}

/// How many answers an operation asks: one or none.
fn asked(operation: Operation) -> usize
    ensures value { result ≡ asked operation }
    ensures one { result ≤ 1 }
{
    match operation {
        Operation::InfoReq | Operation::CfgRead(_) => 1,
        Operation::Nop
        | Operation::Advertise
        | Operation::SelectDest(_)
        | Operation::Return
        | Operation::InfoResp(_)
        | Operation::CfgWrite(_)
        | Operation::CfgReadResp(_)
        | Operation::Other(_) => 0,
    }
}
