ghost use Rattle.std.specs.Prelude.{◌≡◌, ◌+◌, ◌^◌, ◌<◌, ◌≤◌, length, true, OnOk};
ghost use Rattle.block_library.specs.Producer.{FitsPlan};
ghost use Rattle.credit_lane.specs.declared.plan.LanePlan.TheVariants.{Any, Producer};

use crate::{Lane, LaneEnd, LanePlan, LaneRx, LaneTx, close, meet};
use block_library::TxPlan;
use chdr_packets::{Body, Packet};
use chdr_words::{Bytes, Epid, WordList};
use rf_base::Memory;
use std::alloc::Global;
use std::test::Fail;
use std::thread::{Threads, join, join_mut};

/// A packet that tells its number, modulo 2^16.
fn numbered(alloc: Global, number: u64) -> Packet {
    Packet {
        vc: 0,
        eob: false,
        eov: false,
        seq: (number % 65_536) as u16,
        dst: Epid(1),
        mdata: WordList::new(alloc),
        body: Body::Samples {
            time: None,
            payload: Bytes::new(alloc),
        },
    }
}

/// Puts numbered packets while there is room, up to `most`, and returns how many were put in all.
fn fill(alloc: Global, tx: &mut LaneTx<'_>, from: u64, most: u64) -> u64
    requires count { (length tx.old.put ≡ from) × (from ≤ most) × (most < 2 ^ 63) }
    requires plan { tx.old.lane.plan ≡ Any }
    ensures lane { tx.new.lane ≡ tx.old.lane }
    ensures put { (length tx.new.put ≡ result) × (result ≤ most) }
{
    tx.look_taken();
    let mut put = from;
    while put < most && tx.room() > 0 {
        tx.put(numbered(alloc, put));
        put += 1;
    }
    put
}

/// Takes what one look finds, and returns whether the packets had the numbers from `from` on.
fn drain(rx: &mut LaneRx<'_>, from: u64) -> (u64, bool)
    ensures lane { rx.new.lane ≡ rx.old.lane }
{
    rx.look_put();
    let mut next = from;
    let mut ordered = true;
    while rx.waiting() > 0 {
        ordered &= rx.take().seq == (next % 65_536) as u16;
        next = next.wrapping_add(1);
    }
    (next, ordered)
}

#[test]
fn two_puts_fill_a_lane_of_two(rt: HostRuntime) -> Result<(), Fail> {
    let mut lane = Lane::new(rt.alloc(), LanePlan::Any, 2)?;
    let (mut tx, mut rx) = lane.split();
    tx.put(numbered(rt.alloc(), 0));
    tx.put(numbered(rt.alloc(), 1));
    assert_eq!(rt; (tx.room(), rx.waiting()), (0, 0));
    meet(&mut tx, &mut rx);
    assert_eq!(rt; (tx.room(), rx.waiting()), (0, 2));
    assert_eq!(rt; rx.take().seq, 0);
    meet(&mut tx, &mut rx);
    assert_eq!(rt; (tx.room(), rx.waiting()), (1, 1));
    assert_eq!(rt; close(tx, rx), LaneEnd { put: 2, got: 1 });
    Ok(())
}

/// One thread fills the lane, and another takes what it finds at one look.
fn round<R: Threads + Sync>(
    rt: &R,
    alloc: Global,
    tx: &mut LaneTx<'_>,
    rx: &mut LaneRx<'_>,
    put: u64,
    got: u64,
    most: u64,
) -> (u64, (u64, bool))
    requires count { (length tx.old.put ≡ put) × (put ≤ most) × (most < 2 ^ 63) }
    requires plan { tx.old.lane.plan ≡ Any }
    ensures lanes { (tx.new.lane ≡ tx.old.lane) × (rx.new.lane ≡ rx.old.lane) }
    ensures put { (length tx.new.put ≡ result.0) × (result.0 ≤ most) }
{
    join_mut(
        rt,
        &mut || fill(alloc, tx, put, most),
        &mut || drain(rx, got),
    )
}

/// Rounds of two threads, until `most` packets went through.
fn carry<R: Threads + Sync>(
    rt: &R,
    alloc: Global,
    mut tx: LaneTx<'_>,
    mut rx: LaneRx<'_>,
    most: u64,
) -> (LaneEnd, bool)
    requires lane { (tx.lane ≡ rx.lane) × (tx.lane.plan ≡ Any) }
    requires count { (length tx.put ≡ 0) × (most < 2 ^ 63) }
{
    let mut put = 0;
    let mut got = 0;
    let mut ordered = true;
    for _ in 0..u64::MAX {
        if got >= most {
            break;
        }
        meet(&mut tx, &mut rx);
        let (filled, drained) = round(rt, alloc, &mut tx, &mut rx, put, got, most);
        put = filled;
        got = drained.0;
        ordered &= drained.1;
    }
    (close(tx, rx), ordered)
}

#[test]
fn two_threads_share_a_lane(rt: HostRuntime) -> Result<(), Fail> {
    let alloc = rt.alloc();
    let mut lane = Lane::new(alloc, LanePlan::Any, 2)?;
    let (mut tx, mut rx) = lane.split();
    let (put, (got, ordered)) = round(&rt, alloc, &mut tx, &mut rx, 0, 0, 2);
    assert!(rt; ordered && put == 2 && got <= 2);
    assert_eq!(rt; close(tx, rx), LaneEnd { put, got });
    Ok(())
}

#[test]
fn many_packets_arrive_in_order(rt: HostRuntime) -> Result<(), Fail> {
    let mut lane = Lane::new(rt.alloc(), LanePlan::Any, 16)?;
    let (tx, rx) = lane.split();
    let (end, ordered) = carry(&rt, rt.alloc(), tx, rx, 100_000);
    assert!(rt; ordered);
    assert_eq!(rt;
        end,
        LaneEnd {
            put: 100_000,
            got: 100_000
        }
    );
    Ok(())
}

#[test]
fn the_least_and_the_most_room(rt: HostRuntime) -> Result<(), Fail> {
    for room in [1, 1_024] {
        let mut lane = Lane::new(rt.alloc(), LanePlan::Any, room)?;
        let (tx, rx) = lane.split();
        let (end, ordered) = carry(&rt, rt.alloc(), tx, rx, 3_000);
        assert!(rt; ordered);
        assert_eq!(rt;
            end,
            LaneEnd {
                put: 3_000,
                got: 3_000
            }
        );
    }
    Ok(())
}

/// Puts packet `k` of a plan.
#[tactic(auto, using(crate::proofs::Produced::next_produced))]
fn offer(alloc: Global, tx: &mut LaneTx<'_>, plan: &TxPlan, k: u32) -> Result<(), Memory>
    requires plan { FitsPlan plan.now × (tx.old.lane.plan ≡ Producer plan.now) }
    requires next { (length tx.old.put ≡ k) × (k < plan.now.packets) }
    requires room { length tx.old.put < tx.old.lane.room + tx.old.taken }
    ensures lane { (tx.new.lane ≡ tx.old.lane) × (tx.new.taken ≡ tx.old.taken) }
    ensures put { OnOk result (length tx.new.put ≡ k + 1) }
{
    let packet = plan.packet(alloc, k)?;
    tx.put(packet);
    Ok(())
}

#[test]
fn a_planned_lane_carries_its_plan(rt: HostRuntime) -> Result<(), Fail> {
    let alloc = rt.alloc();
    let plan = TxPlan {
        packets: 3,
        spp: 2,
        item: 4,
        time: None,
        dst: Epid(7),
    };
    let mut lane = Lane::new(alloc, LanePlan::Producer(plan), 2)?;
    let (mut tx, mut rx) = lane.split();
    offer(alloc, &mut tx, &plan, 0)?;
    offer(alloc, &mut tx, &plan, 1)?;
    meet(&mut tx, &mut rx);
    assert!(rt; rx.take() == plan.packet(alloc, 0)?);
    meet(&mut tx, &mut rx);
    offer(alloc, &mut tx, &plan, 2)?;
    assert_eq!(rt; (rx.look_put(), rx.waiting()), (3, 2));
    assert!(rt; rx.take() == plan.packet(alloc, 1)?);
    assert_eq!(rt; (tx.look_taken(), tx.room()), (2, 1));
    assert_eq!(rt; close(tx, rx), LaneEnd { put: 3, got: 2 });
    Ok(())
}

/// One packet through a lane that came from elsewhere; a second one stays in it.
fn used_up(alloc: Global, mut lane: Lane) -> LaneEnd
    requires { (lane.whole ≡ true) × (lane.lane.plan ≡ Any) × (1 < lane.lane.room) }
{
    let (mut tx, mut rx) = lane.split();
    tx.put(numbered(alloc, 0));
    tx.put(numbered(alloc, 1));
    meet(&mut tx, &mut rx);
    rx.take();
    close(tx, rx)
}

#[test]
fn a_lane_moves_to_another_thread(rt: HostRuntime) -> Result<(), Fail> {
    let alloc = rt.alloc();
    let lane = Lane::new(alloc, LanePlan::Any, 2)?;
    let (end, ()) = join(&rt, move || used_up(alloc, lane), || ());
    assert_eq!(rt; end, LaneEnd { put: 2, got: 1 });
    Ok(())
}
