ghost use Rattle.std.specs.Prelude.{◌≡◌, Ok, OnOk};
ghost use Rattle.std.specs.List.{All, list_any};
ghost use Rattle.stream_lanes.specs.Sides.{DrainSide, SourceSide};
ghost use Rattle.stream_lanes.specs.Working.{AllEnded, EachEmpties, EachFills, Empties, Fills, any_moved};

use crate::{Drain, Gate, Source};
use rf_base::Memory;
use std::alloc::Global;
use std::thread;
use std::thread::{Threads, join_mut};

/// The workers at the edges of a run: one for each stream that a Tx fills, and one for each stream to an Rx.
#[derive(Drop)]
pub struct Edges<'a> {
    pub sources: Vec<Source<'a>>,
    pub drains: Vec<Drain<'a>>,
}

impl Edges<'_> {
    /// One round of all of them at once, each on a thread of its own.
    #[tactic(auto, using(crate::proofs::Lists::kept))]
    pub fn work<R: Threads + Sync, G: Gate>(&mut self, rt: &R, alloc: Global, gate: &G)
        ensures fills { EachFills self.old.sources.items self.new.sources.items }
        ensures empties { EachEmpties self.old.drains.items self.new.drains.items }
    {
        both(
            rt,
            alloc,
            gate,
            self.sources.as_mut_slice(),
            self.drains.as_mut_slice(),
        );
    }

    /// How the last round went: well if it went well for each of them.
    pub fn ended(&self) -> Result<(), Memory>
        ensures { OnOk result (AllEnded self.now.sources.items self.now.drains.items) }
    {
        sources_ended(&self.sources)?;
        drains_ended(&self.drains)
    }

    /// Whether any of them put or took a packet in the last round.
    pub fn moved(&self) -> bool
        ensures { result ≡ any_moved self.now.sources.items self.now.drains.items }
    {
        any_put(&self.sources) || any_taken(&self.drains)
    }
}

/// Whether any packet was put in the last round.
fn any_put(sources: &[Source<'_>]) -> bool
    ensures { result ≡ list_any (λ (x : SourceSide). x.moved) sources.now }
{
    sources.iter().any(|source| source.moved())
}

/// Whether any packet was taken in the last round.
fn any_taken(drains: &[Drain<'_>]) -> bool
    ensures { result ≡ list_any (λ (x : DrainSide). x.moved) drains.now }
{
    drains.iter().any(|drain| drain.moved())
}

/// How the last round went for the sources.
fn sources_ended(sources: &[Source<'_>]) -> Result<(), Memory>
    ensures { OnOk result (All (λ (x : SourceSide). x.ended ≡ Ok tt) sources.now) }
{
    for source in sources {
        source.ended()?;
    }
    Ok(())
}

/// How the last round went for the drains.
fn drains_ended(drains: &[Drain<'_>]) -> Result<(), Memory>
    ensures { OnOk result (All (λ (x : DrainSide). x.ended ≡ Ok tt) drains.now) }
{
    for drain in drains {
        drain.ended()?;
    }
    Ok(())
}

/// All sources and all drains at once.
fn both<R: Threads + Sync, G: Gate>(
    rt: &R,
    alloc: Global,
    gate: &G,
    sources: &mut [Source<'_>],
    drains: &mut [Drain<'_>],
)
    ensures fills { EachFills sources.old sources.new }
    ensures empties { EachEmpties drains.old drains.new }
{
    join_mut(
        rt,
        &mut ||
            ensures { EachFills sources.entry.now sources.exit.now }
        { fill_each(rt, alloc, gate, sources) },
        &mut ||
            ensures { EachEmpties drains.entry.now drains.exit.now }
        { empty_each(rt, gate, drains) },
    );
}

/// All sources at once.
fn fill_each<R: Threads + Sync, G: Gate>(
    rt: &R,
    alloc: Global,
    gate: &G,
    sources: &mut [Source<'_>],
)
    ensures { EachFills sources.old sources.new }
{
    let threads = sources.len().max(1);
    thread::for_each_mut(
        rt,
        sources,
        threads,
        &|_: usize, source: &mut Source<'_>|
            ensures { Fills source.old source.new }
        { source.work(alloc, gate) },
    );
}

/// All drains at once.
fn empty_each<R: Threads + Sync, G: Gate>(rt: &R, gate: &G, drains: &mut [Drain<'_>])
    ensures { EachEmpties drains.old drains.new }
{
    let threads = drains.len().max(1);
    thread::for_each_mut(
        rt,
        drains,
        threads,
        &|_: usize, drain: &mut Drain<'_>|
            ensures { Empties drain.old drain.new }
        { drain.work(gate) },
    );
}
