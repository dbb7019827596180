//! The plan of a run, with what each of its steps asks of the plan's streams.
ghost use Rattle.std.specs.Prelude.{◌≡◌, ◌<◌, length, IfOk};
ghost use Rattle.net_machine.specs.Conditions.{ends_at_rx};
ghost use Rattle.fabric_lists.specs.Opened.{is_tx_stream};
ghost use Rattle.stream_pump.specs.Sided.{all_sides};

use net_machine::RunPlan;
use plan_lookups::{ends_at_rx, is_tx, producer_of};
use rf_base::Memory;
use std::alloc::Global;
use std::marker::Model;

/// What stands at the two sides of a stream.
#[derive(Clone, Copy)]
pub(crate) struct Sides {
    /// Whether a Tx makes its packets.
    from_tx: bool,
    /// Whether an Rx takes them.
    to_rx: bool,
}

/// A plan whose streams' sides were looked up, once for all steps of a run. Contracts see it as the plan.
#[derive(Drop)]
pub(crate) struct SidedPlan<'a> {
    plan: &'a RunPlan,
    /// For each stream, by its number.
    sides: Vec<Sides>,
}

impl<'a> Model for SidedPlan<'a> {
    ghost use Rattle.net_machine.specs.declared.plan.RunPlan.{RunPlan};

    ghost Value = { RunPlan };

    ghost use Rattle.stream_pump.specs.Sided.{KeepsSides, plan_of};

    ghost view = { plan_of };

    ghost invariant = { KeepsSides };
}

impl<'a> SidedPlan<'a> {
    /// Looks up the sides of each stream of a plan.
    pub(crate) fn of(alloc: Global, plan: &'a RunPlan) -> Result<SidedPlan<'a>, Memory>
        ensures { IfOk result (λ sided. sided ≡ plan.now) }
    {
        let sides = sides_of(alloc, plan)?;
        Ok(SidedPlan { plan, sides })
    }
}

impl SidedPlan<'_> {
    /// How many streams there are.
    pub(crate) fn streams(&self) -> usize
        ensures { result ≡ length self.now.streams }
    {
        self.plan.streams.len()
    }

    /// Whether a Tx makes the packets of a stream.
    pub(crate) fn begins_at_tx(&self, s: usize) -> bool
        requires { s < length self.now.streams }
        ensures { result ≡ is_tx_stream self.now s }
    {
        self.sides[s].from_tx
    }

    /// Whether the consumer of a stream is an Rx.
    pub(crate) fn ends_at_rx(&self, s: usize) -> bool
        requires { s < length self.now.streams }
        ensures { result ≡ ends_at_rx self.now s }
    {
        self.sides[s].to_rx
    }
}

/// The sides of each stream of a plan.
fn sides_of(alloc: Global, plan: &RunPlan) -> Result<Vec<Sides>, Memory>
    ensures { IfOk result (λ sides. sides.items ≡ all_sides plan.now) }
{
    let mut sides = Vec::new(alloc);
    for s in 0..plan.streams.len() {
        sides.push(Sides {
            from_tx: is_filled_by_tx(plan, s),
            to_rx: ends_at_rx(plan, s),
        })?;
    }
    Ok(sides)
}

/// Whether a Tx makes the packets of a stream.
fn is_filled_by_tx(plan: &RunPlan, s: usize) -> bool
    requires { s < length plan.now.streams }
    ensures { result ≡ is_tx_stream plan.now s }
{
    match producer_of(plan, s) {
        Some(block) => is_tx(plan.blocks.as_slice()[block].kind),
        None => false,
    }
}
