ghost use Rattle.std.specs.Prelude.{◌≡◌, ◌⊎◌};
ghost use Rattle.block_library.specs.Blocks.{FitsKind};

use block_library::{Block, BlockKind, TxPlan};
use chdr_packets::{Body, Packet};
use chdr_words::Epid;
use rf_base::{Copyable, Items};
use std::alloc::Global;
use std::test::Fail;

const PLAN: TxPlan = TxPlan {
    packets: 3,
    spp: 2,
    item: 4,
    time: None,
    dst: Epid(2),
};

#[test]
fn the_last_packet_of_a_plan_ends_the_burst(rt: HostRuntime) -> Result<(), Fail> {
    let payload = Items::from_vec(vec![in rt.alloc(); 4u8, 0, 0, 0, 5, 0, 0, 0]?);
    let last = Packet {
        vc: 0,
        eob: true,
        eov: false,
        seq: 0,
        dst: Epid(2),
        mdata: Items::new(rt.alloc()),
        body: Body::Samples {
            time: None,
            payload,
        },
    };
    assert_eq!(rt; PLAN.packet(rt.alloc(), 2)?, last);
    assert!(rt; !PLAN.packet(rt.alloc(), 1)?.eob);
    Ok(())
}

#[test]
fn times_run_on_past_the_end_of_their_type(rt: HostRuntime) -> Result<(), Fail> {
    let plan = TxPlan {
        item: 8,
        time: Some(u64::MAX),
        ..PLAN
    };
    let payload = Items::from_vec(vec![in rt.alloc();
        2u8, 0, 0, 0, 0, 0, 0, 0, 3, 0, 0, 0, 0, 0, 0, 0,
    ]?);
    let body = Body::Samples {
        time: Some(1),
        payload,
    };
    assert_eq!(rt; plan.packet(rt.alloc(), 1)?.body, body);
    Ok(())
}

/// Packets of samples by their first bytes, each with its input, its time and whether it ends a burst.
type Rows = &'static [(u16, Option<u64>, &'static [u8], bool)];

fn packet(
    alloc: Global,
    item: u32,
    time: Option<u64>,
    numbers: &[u8],
    eob: bool,
) -> Result<Packet, Fail> {
    let mut payload = Vec::new(alloc);
    for number in numbers {
        payload.push(*number)?;
        for _ in 1..item {
            payload.push(0)?;
        }
    }
    Ok(Packet {
        vc: 0,
        eob,
        eov: false,
        seq: 0,
        dst: Epid(2),
        mdata: Items::new(alloc),
        body: Body::Samples {
            time,
            payload: Items::from_vec(payload),
        },
    })
}

/// A list of packets as text, as `3:0.1.!` for samples 0 and 1 at time 3 and the end of a burst.
fn text(alloc: Global, item: u32, packets: &[Packet]) -> Result<String, Fail> {
    let mut all = String::new(alloc);
    for packet in packets {
        if let Body::Samples { time, payload } = &packet.body {
            if let Some(time) = time {
                all.push_str(format!(in alloc; "{time}:")?.as_str())?;
            }
            for sample in payload.as_slice().chunks(item.max(1) as usize) {
                if let Some(byte) = sample.first() {
                    all.push_str(format!(in alloc; "{byte}.")?.as_str())?;
                }
            }
        }
        all.push_str(if packet.eob { "! " } else { " " })?;
    }
    Ok(all)
}

/// What a block gives on its two outputs, as text.
fn outputs(alloc: Global, kind: BlockKind, item: u32, rows: Rows) -> Result<(String, String), Fail>
    requires kind { FitsKind kind }
    requires item { (item ≡ 4) ⊎ (item ≡ 8) }
{
    let mut block = Block::new(alloc, kind, item)?;
    let mut first = Vec::new(alloc);
    let mut second = Vec::new(alloc);
    for (port, time, numbers, eob) in rows {
        let fed = packet(alloc, item, *time, numbers, *eob)?;
        if block.takes(*port, &fed) {
            block.prepare(*port, &fed)?;
            let given = block.feed(*port, fed);
            for made in given.first.into_vec() {
                first.push(made)?;
            }
            for made in given.second.into_vec() {
                second.push(made)?;
            }
        }
    }
    Ok((
        text(alloc, item, first.as_slice())?,
        text(alloc, item, second.as_slice())?,
    ))
}

const ROWS: Rows = &[
    (0, Some(5), &[0, 1, 2], false),
    (0, None, &[], false),
    (0, None, &[3, 4], true),
    (0, Some(9), &[], true),
    (0, None, &[5], false),
];

#[test]
fn a_block_is_fed_on_vc_0_without_metadata_and_passes_an_eov_on(
    rt: HostRuntime,
) -> Result<(), Fail> {
    let mut block = Block::new(rt.alloc(), BlockKind::Fifo, 4)?;
    let mut other = packet(rt.alloc(), 4, None, &[1], false)?;
    other.vc = 1;
    assert!(rt; !block.takes(0, &other));
    let mut marked = packet(rt.alloc(), 4, None, &[1], false)?;
    marked.mdata.push(0)?;
    assert!(rt; !block.takes(0, &marked));
    let mut ends = packet(rt.alloc(), 4, None, &[1], false)?;
    ends.eov = true;
    let mut passed = false;
    if block.takes(0, &ends) {
        block.prepare(0, &ends)?;
        for given in block.feed(0, ends).first.into_vec() {
            passed = given.eov;
        }
    }
    assert!(rt; passed);
    Ok(())
}

#[test]
fn packets_are_passed_and_samples_kept(rt: HostRuntime) -> Result<(), Fail> {
    let all = "5:0.1.2.  3.4.! 9:! 5. ";
    for item in [4, 8] {
        let got = outputs(rt.alloc(), BlockKind::Fifo, item, ROWS)?;
        assert_eq!(rt; (got.0.as_str(), got.1.as_str()), (all, ""));
        let got = outputs(rt.alloc(), BlockKind::Split, item, ROWS)?;
        assert_eq!(rt; (got.0.as_str(), got.1.as_str()), (all, all));
        let got = outputs(rt.alloc(), BlockKind::Sink, item, ROWS)?;
        assert_eq!(rt; (got.0.as_str(), got.1.as_str()), ("", ""));
        let got = outputs(rt.alloc(), BlockKind::Keep(1), item, ROWS)?;
        assert_eq!(rt; got.0.as_str(), "5:0.1.2. 3.4.! 9:! 5. ");
        let got = outputs(rt.alloc(), BlockKind::Keep(2), item, ROWS)?;
        assert_eq!(rt; got.0.as_str(), "5:0.2. 4.! 9:! ");
        let got = outputs(rt.alloc(), BlockKind::Keep(1024), item, ROWS)?;
        assert_eq!(rt; got.0.as_str(), "5:0. ! 9:! ");
    }
    Ok(())
}

#[test]
fn samples_are_repeated_and_groups_replayed(rt: HostRuntime) -> Result<(), Fail> {
    for item in [4, 8] {
        let got = outputs(rt.alloc(), BlockKind::Repeat(1), item, ROWS)?;
        assert_eq!(rt; got.0.as_str(), "5:0.1.2.  3.4.! 9:! 5. ");
        let got = outputs(rt.alloc(), BlockKind::Repeat(2), item, ROWS)?;
        assert_eq!(rt; got.0.as_str(), "5:0.0.1. 1.2.2.  3.3. 4.4.! 9:! 5. 5. ");
        let got = outputs(rt.alloc(), BlockKind::Replay(2), item, ROWS)?;
        assert_eq!(rt; got.0.as_str(), "5:0.1.2.  3.4.! 5:0.1.2.  3.4.! 9:! 9:! ");
        let got = outputs(rt.alloc(), BlockKind::Replay(1), item, ROWS)?;
        assert_eq!(rt; got.0.as_str(), "5:0.1.2.  3.4.! 9:! ");
    }
    Ok(())
}

#[test]
fn a_switch_passes_the_input_of_its_number(rt: HostRuntime) -> Result<(), Fail> {
    let rows: Rows = &[
        (0, None, &[1], false),
        (1, None, &[2], false),
        (0, None, &[3], true),
    ];
    let got = outputs(rt.alloc(), BlockKind::Switch(0), 4, rows)?;
    assert_eq!(rt; got.0.as_str(), "1. 3.! ");
    let got = outputs(rt.alloc(), BlockKind::Switch(1), 4, rows)?;
    assert_eq!(rt; got.0.as_str(), "2. ");
    Ok(())
}

#[test]
fn sixteen_times_is_the_most(rt: HostRuntime) -> Result<(), Fail> {
    let rows: Rows = &[(0, None, &[1], true)];
    let got = outputs(rt.alloc(), BlockKind::Repeat(16), 8, rows)?;
    let want = "1. 1. 1. 1. 1. 1. 1. 1. 1. 1. 1. 1. 1. 1. 1. 1.! ";
    assert_eq!(rt; got.0.as_str(), want);
    let got = outputs(rt.alloc(), BlockKind::Replay(16), 8, rows)?;
    let want = "1.! 1.! 1.! 1.! 1.! 1.! 1.! 1.! 1.! 1.! 1.! 1.! 1.! 1.! 1.! 1.! ";
    assert_eq!(rt; got.0.as_str(), want);
    Ok(())
}

/// How many packets replay gives for so many that end no burst.
fn replayed(alloc: Global, count: u32) -> Result<usize, Fail> {
    let mut block = Block::new(alloc, BlockKind::Replay(3), 4)?;
    let mut given = 0usize;
    for _ in 0..count {
        let fed = packet(alloc, 4, None, &[1], false)?;
        if block.takes(0, &fed) {
            block.prepare(0, &fed)?;
            given = given.saturating_add(block.feed(0, fed).first.len());
        }
    }
    Ok(given)
}

#[test]
fn a_group_is_whole_at_its_64th_packet(rt: HostRuntime) -> Result<(), Fail> {
    for (count, given) in [(63, 0), (64, 192), (65, 192), (127, 192), (128, 384)] {
        assert_eq!(rt; replayed(rt.alloc(), count)?, given);
    }
    Ok(())
}

#[test]
fn the_number_of_a_kind_has_a_range(rt: HostRuntime) -> Result<(), Fail> {
    for (kind, fits) in [
        (BlockKind::Keep(0), false),
        (BlockKind::Keep(1), true),
        (BlockKind::Keep(1024), true),
        (BlockKind::Keep(1025), false),
        (BlockKind::Repeat(16), true),
        (BlockKind::Repeat(17), false),
        (BlockKind::Switch(1), true),
        (BlockKind::Switch(2), false),
    ] {
        assert_eq!(rt; kind.fits(), fits);
    }
    Ok(())
}

#[test]
fn a_kind_is_copied(rt: HostRuntime) -> Result<(), Fail> {
    assert_eq!(rt; BlockKind::Keep(4).copy()?, BlockKind::Keep(4));
    Ok(())
}

#[test]
fn the_registers_tell_kind_number_and_counts(rt: HostRuntime) -> Result<(), Fail> {
    let mut block = Block::new(rt.alloc(), BlockKind::Keep(4), 4)?;
    for eob in [false, true] {
        let fed = packet(rt.alloc(), 4, None, &[7, 8], eob)?;
        if block.takes(0, &fed) {
            block.prepare(0, &fed)?;
            block.feed(0, fed);
        }
    }
    for (addr, word) in [
        (0, Some(3)),
        (4, Some(4)),
        (8, Some(2)),
        (12, Some(2)),
        (16, None),
        (2, None),
    ] {
        assert_eq!(rt; block.register(addr), word);
    }
    Ok(())
}
