use block_library::BlockKind;
use chdr_words::{CmdOp, Epid};
use net_faults::Fault;
use net_machine::{BlockPlan, Event, RunPlan, Seed, StreamEnd, StreamPlan, Tally};
use rf_base::{Copyable, Items};
use std::test::Fail;
use stream_endpoint::{Flow, Policy};

fn a_stream() -> StreamPlan {
    StreamPlan {
        from: Epid(1),
        to: Epid(2),
        flow: Flow {
            cap_bytes: 64,
            cap_packets: 4,
            freq_bytes: 24,
            freq_packets: 1,
            max: 24,
        },
        start: 65534,
        policy: Policy::Off,
    }
}

#[test]
fn a_plan_is_copied_whole(rt: HostRuntime) -> Result<(), Fail> {
    let mut ins = Items::new(rt.alloc());
    ins.push(Epid(3))?;
    let mut outs = Items::new(rt.alloc());
    outs.push(Epid(4))?;
    let mut blocks = Items::new(rt.alloc());
    blocks.push(BlockPlan {
        kind: BlockKind::Keep(4),
        ins,
        outs,
        packets: 0,
        spp: 2,
        item: 8,
        time: Some(9),
    })?;
    let mut streams = Items::new(rt.alloc());
    streams.push(a_stream())?;
    let mut faults = Items::new(rt.alloc());
    faults.push(Fault::Samples(0, 2))?;
    let plan = RunPlan {
        streams,
        blocks,
        faults,
    };
    assert!(rt; plan.copy()? == plan);
    Ok(())
}

#[test]
fn what_a_run_leaves_is_copied(rt: HostRuntime) -> Result<(), Fail> {
    let event = Event::Command(0, CmdOp::Ping);
    assert_eq!(rt; event.copy()?, event);
    let end = StreamEnd::Undrained { sent: 6, acked: 5 };
    assert_eq!(rt; end.copy()?, end);
    let tally = Tally {
        sent: 6,
        delivered: 5,
        acked: 5,
        epochs: 1,
        peak_bytes: 48,
        peak_packets: 2,
    };
    assert_eq!(rt; tally.copy()?, tally);
    Ok(())
}

/// The first seeds after 1 and the places that they take among ten events.
#[test]
fn a_seed_goes_through_its_numbers(rt: HostRuntime) -> Result<(), Fail> {
    let first = Seed(1).next();
    assert_eq!(rt; first, Seed(7806831264735756412));
    assert_eq!(rt; first.place(10), 4);
    assert_eq!(rt; Seed(0).next(), Seed(0));
    assert_eq!(rt; Seed(0).place(10), 0);
    Ok(())
}
