ghost use Rattle.std.specs.Prelude.{◌≡◌, IfOk, IfSome, is_some};
ghost use Rattle.block_library.specs.Blocks.{IsFeed};
ghost use Rattle.block_library.specs.Producer.{FitsPlan};
ghost use Rattle.fabric_parts.specs.Ready.{IsShort, ready_first};

use block_library::{BlockKind, TxPlan};
use chdr_packets::{Body, Packet};
use chdr_words::{CmdOp, Epid};
use fabric_parts::{BlockPart, Entry, MOST_OFFERED, Queue, StreamPart};
use net_machine::{StreamEnd, StreamPlan};
use rf_base::{Items, Memory};
use std::alloc::Global;
use std::test::Fail;
use stream_endpoint::{Flow, Policy};

const TX: TxPlan = TxPlan {
    packets: 2,
    spp: 2,
    item: 4,
    time: None,
    dst: Epid(2),
};

fn a_stream(alloc: Global, tx: Option<TxPlan>) -> Result<StreamPart, Memory>
    requires { IfSome tx FitsPlan }
    ensures tx { IfOk result (λ s. s.is_tx ≡ is_some tx) }
    ensures ready { IfOk result (λ s. s.now.ready ≡ ready_first tx) }
    ensures offered { IfOk result (λ s. s.now.offered ≡ 0) }
{
    let plan = StreamPlan {
        from: Epid(1),
        to: Epid(2),
        flow: Flow {
            cap_bytes: 64,
            cap_packets: 4,
            freq_bytes: 24,
            freq_packets: 1,
            max: 24,
        },
        start: 65534,
        policy: Policy::Off,
    };
    StreamPart::new(alloc, &plan, tx)
}

/// A packet of two samples of 4 bytes: 16 bytes on the wire.
fn samples(alloc: Global) -> Result<Packet, Memory>
    ensures short { IfOk result IsShort }
    ensures feed { IfOk result (IsFeed 4) }
{
    let payload = Items::from_vec(Vec::from_slice(alloc, &[1, 0, 0, 0, 2, 0, 0, 0])?);
    Ok(Packet {
        vc: 0,
        eob: false,
        eov: false,
        seq: 0,
        dst: Epid(0),
        mdata: Items::new(alloc),
        body: Body::Samples {
            time: None,
            payload,
        },
    })
}

#[test]
fn a_queue_holds_as_many_as_it_was_made_for(rt: HostRuntime) -> Result<(), Fail> {
    let mut queue = Queue::new(rt.alloc(), 1)?;
    queue.push(Entry {
        packet: samples(rt.alloc())?,
        marked: true,
    });
    assert!(rt; queue.is_full());
    assert_eq!(rt; queue.front().map(|entry| entry.marked), Some(true));
    assert!(rt; queue.pop().is_some());
    assert!(rt; queue.pop().is_none());
    Ok(())
}

/// A Tx's list counts as ready before any of it is offered.
#[test]
fn a_new_stream_has_its_whole_list_ready(rt: HostRuntime) -> Result<(), Fail> {
    let stream = a_stream(rt.alloc(), Some(TX))?;
    assert!(rt; !stream.is_clear());
    assert!(rt; !stream.can_send());
    assert_eq!(rt; stream.offered(), 0);
    assert!(rt; stream.may_order(CmdOp::Init, false, false));
    assert!(rt; !stream.may_order(CmdOp::Ping, true, true));
    assert_eq!(rt;
        stream.undrained(),
        StreamEnd::Undrained { sent: 0, acked: 0 }
    );
    assert!(rt; MOST_OFFERED >= 1);
    Ok(())
}

#[test]
fn what_a_block_gave_is_ready(rt: HostRuntime) -> Result<(), Fail> {
    let mut stream = a_stream(rt.alloc(), None)?;
    assert!(rt; stream.is_clear());
    let mut list = Items::new(rt.alloc());
    list.push(samples(rt.alloc())?)?;
    stream.fill(list);
    assert!(rt; !stream.is_clear());
    Ok(())
}

/// A sink's line counts what it took; a fifo's stays empty.
#[test]
fn a_sink_has_a_line(rt: HostRuntime) -> Result<(), Fail> {
    for (kind, packets) in [(BlockKind::Sink, 1), (BlockKind::Fifo, 0)] {
        let mut block = BlockPart::new(rt.alloc(), 3, kind, 4)?;
        let packet = samples(rt.alloc())?;
        if block.takes(0, &packet) {
            block.prepare(0, &packet)?;
            let given = block.feed(0, packet);
            assert_eq!(rt; given.first.len() as u64 + packets, 1);
        }
        assert_eq!(rt; block.line().packets, packets);
        assert_eq!(rt; block.line().block, 3);
    }
    Ok(())
}
