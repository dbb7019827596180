ghost use Rattle.std.specs.Prelude.{◌≡◌, ◌≤◌};
ghost use Rattle.block_library.specs.Producer.{FitsPlan};

use crate::{Drain, Edges, FreeGate, Gate, Source};
use block_library::TxPlan;
use chdr_packets::Packet;
use chdr_words::Epid;
use credit_lane::{Lane, LanePlan};
use rf_base::Memory;
use std::alloc::Global;
use std::sync::atomic::{AtomicBool, AtomicU64, Ordering};
use std::test::Fail;

/// A plan of so many packets of two samples.
fn makes(packets: u32) -> TxPlan
    requires { packets ≤ 16384 }
    ensures fits { FitsPlan result }
    ensures packets { result.packets ≡ packets }
{
    TxPlan {
        packets,
        spp: 2,
        item: 4,
        time: None,
        dst: Epid(7),
    }
}

/// Whether these are the first packets of a plan.
fn are_made(alloc: Global, plan: &TxPlan, packets: &[Packet]) -> Result<bool, Memory>
    requires { FitsPlan plan.now }
{
    let mut k = 0;
    for packet in packets {
        if k >= plan.packets || *packet != plan.packet(alloc, k)? {
            return Ok(false);
        }
        k += 1;
    }
    Ok(true)
}

#[test]
fn a_drain_takes_what_a_source_puts(rt: HostRuntime) -> Result<(), Fail> {
    let alloc = rt.alloc();
    let plan = makes(3);
    let mut lane = Lane::new(alloc, LanePlan::Producer(plan), 2)?;
    let (tx, rx) = lane.split();
    let mut edges = Edges {
        sources: vec![in alloc; Source::new(0, tx, plan)]?,
        drains: vec![in alloc; Drain::new(alloc, 0, rx)]?,
    };
    for _round in 0..8 {
        edges.work(&rt, alloc, &FreeGate);
    }
    for drain in &edges.drains {
        assert!(rt; drain.ended().is_ok() && !drain.moved());
        assert_eq!(rt; drain.list().len(), 3);
        assert!(rt; are_made(alloc, &plan, drain.list())?);
    }
    for source in &edges.sources {
        assert!(rt; source.ended().is_ok() && !source.moved());
    }
    Ok(())
}

/// A gate that counts who passes it, and with which numbers.
#[derive(Drop)]
struct Counting {
    sources: AtomicU64,
    packets: AtomicU64,
    drains: AtomicU64,
    rounds: AtomicU64,
}

impl Gate for Counting {
    fn pass(&self, stream: u16, number: u64) {
        if stream == 5 {
            self.sources.fetch_add(1, Ordering::SeqCst);
            self.packets.fetch_add(number, Ordering::SeqCst);
        }
        if stream == 32_773 {
            self.drains.fetch_add(1, Ordering::SeqCst);
            self.rounds.fetch_add(number, Ordering::SeqCst);
        }
    }
}

#[test]
fn workers_pass_the_gate_with_their_numbers(rt: HostRuntime) -> Result<(), Fail> {
    let alloc = rt.alloc();
    let plan = makes(4);
    let mut lane = Lane::new(alloc, LanePlan::Producer(plan), 4)?;
    let (tx, rx) = lane.split();
    let mut edges = Edges {
        sources: vec![in alloc; Source::new(5, tx, plan)]?,
        drains: vec![in alloc; Drain::new(alloc, 5, rx)]?,
    };
    let gate = Counting {
        sources: AtomicU64::new(0),
        packets: AtomicU64::new(0),
        drains: AtomicU64::new(0),
        rounds: AtomicU64::new(0),
    };
    for _round in 0..3 {
        edges.work(&rt, alloc, &gate);
    }
    assert_eq!(rt; gate.sources.load(Ordering::SeqCst), 4);
    assert_eq!(rt; gate.packets.load(Ordering::SeqCst), 6);
    assert_eq!(rt; gate.drains.load(Ordering::SeqCst), 3);
    assert_eq!(rt; gate.rounds.load(Ordering::SeqCst), 3);
    Ok(())
}

/// A gate at which a source's first packet and a drain's first round wait for one another.
#[derive(Drop)]
struct Meeting {
    source: AtomicBool,
    drain: AtomicBool,
    missed: AtomicBool,
}

/// How often a worker looks whether the other one came.
const TURNS: u64 = 1_000_000_000;

/// Whether the flag is set within so many turns.
fn comes(flag: &AtomicBool) -> bool {
    for _turn in 0..TURNS {
        if flag.load(Ordering::SeqCst) {
            return true;
        }
    }
    false
}

impl Meeting {
    /// Shows that one came, and waits for the other.
    fn meet(&self, own: &AtomicBool, other: &AtomicBool) {
        own.store(true, Ordering::SeqCst);
        if !comes(other) {
            self.missed.store(true, Ordering::SeqCst);
        }
    }
}

impl Gate for Meeting {
    fn pass(&self, stream: u16, number: u64) {
        if stream == 0 && number == 0 {
            self.meet(&self.source, &self.drain);
        }
        if stream == 32_768 && number == 0 {
            self.meet(&self.drain, &self.source);
        }
    }
}

#[test]
fn a_source_and_a_drain_work_at_once(rt: HostRuntime) -> Result<(), Fail> {
    let alloc = rt.alloc();
    let plan = makes(1);
    let mut lane = Lane::new(alloc, LanePlan::Producer(plan), 1)?;
    let (tx, rx) = lane.split();
    let mut edges = Edges {
        sources: vec![in alloc; Source::new(0, tx, plan)]?,
        drains: vec![in alloc; Drain::new(alloc, 0, rx)]?,
    };
    let gate = Meeting {
        source: AtomicBool::new(false),
        drain: AtomicBool::new(false),
        missed: AtomicBool::new(false),
    };
    edges.work(&rt, alloc, &gate);
    assert!(rt; !gate.missed.load(Ordering::SeqCst));
    assert!(rt; gate.source.load(Ordering::SeqCst) && gate.drain.load(Ordering::SeqCst));
    Ok(())
}
