use chdr_words::Epid;
use graph_core::{Prop, PropAt, Rule, Side};
use script_books::Refusal;
use script_lines::{Page, put_refusal};
use std::alloc::Global;
use std::process::Abort;
use std::test::Fail;

/// The refusal says itself, and is told, by this text.
fn says(rt: &impl Abort, alloc: Global, refusal: Refusal, text: &str) -> Result<(), Fail> {
    let shown = format!(in alloc; "{refusal}")?;
    assert_eq!(rt; shown.as_str(), text);
    let mut page = Page::new(alloc)?;
    put_refusal(&mut page, refusal);
    assert_eq!(rt; page.as_bytes(), text.as_bytes());
    Ok(())
}

#[test]
fn refusals_of_networks_and_hosts_are_told(rt: HostRuntime) -> Result<(), Fail> {
    says(
        &rt,
        rt.alloc(),
        Refusal::TooManyNodes { count: 65 },
        "TooManyNodes 65",
    )?;
    says(
        &rt,
        rt.alloc(),
        Refusal::DuplicateEpid { epid: Epid(7) },
        "DuplicateEpid 7",
    )?;
    says(
        &rt,
        rt.alloc(),
        Refusal::NetBadPort { link: 3 },
        "BadPort 3",
    )?;
    says(
        &rt,
        rt.alloc(),
        Refusal::PortTwice { link: 4 },
        "PortTwice 4",
    )?;
    says(&rt, rt.alloc(), Refusal::NetCycle { link: 2 }, "Cycle 2")?;
    says(&rt, rt.alloc(), Refusal::Apart { node: 5 }, "Apart 5")?;
    says(
        &rt,
        rt.alloc(),
        Refusal::BadLinkRoom { room: 0 },
        "BadLinkRoom 0",
    )?;
    says(&rt, rt.alloc(), Refusal::NoNet, "NoNet")?;
    says(
        &rt,
        rt.alloc(),
        Refusal::NoHost { epid: Epid(9) },
        "NoHost 9",
    )?;
    says(
        &rt,
        rt.alloc(),
        Refusal::NoRoute { epid: Epid(3) },
        "NoRoute 3",
    )?;
    says(&rt, rt.alloc(), Refusal::NoAck, "NoAck")?;
    says(
        &rt,
        rt.alloc(),
        Refusal::Unknown { epid: Epid(3) },
        "Unknown 3",
    )?;
    Ok(())
}

#[test]
fn refusals_of_blocks_and_edges_are_told(rt: HostRuntime) -> Result<(), Fail> {
    says(&rt, rt.alloc(), Refusal::Lost { instance: 1 }, "Lost 1")?;
    says(
        &rt,
        rt.alloc(),
        Refusal::NotLoaded { port: 1 },
        "NotLoaded 1",
    )?;
    says(&rt, rt.alloc(), Refusal::TooManyBlocks, "TooManyBlocks")?;
    says(
        &rt,
        rt.alloc(),
        Refusal::NoEndpoint { epid: Epid(8) },
        "NoEndpoint 8",
    )?;
    says(
        &rt,
        rt.alloc(),
        Refusal::EndpointTaken { epid: Epid(2) },
        "EndpointTaken 2",
    )?;
    says(&rt, rt.alloc(), Refusal::TooManyStreams, "TooManyStreams")?;
    says(&rt, rt.alloc(), Refusal::BadPort, "BadPort")?;
    says(&rt, rt.alloc(), Refusal::PortTaken, "PortTaken")?;
    says(&rt, rt.alloc(), Refusal::Cycle, "Cycle")?;
    says(&rt, rt.alloc(), Refusal::Loop { epid: Epid(6) }, "Loop 6")?;
    says(&rt, rt.alloc(), Refusal::NoProperty, "NoProperty")?;
    Ok(())
}

#[test]
fn refusals_of_commits_are_told(rt: HostRuntime) -> Result<(), Fail> {
    says(
        &rt,
        rt.alloc(),
        Refusal::Clash {
            by: Rule::Edge(0),
            prop: Prop::Rate,
            held: 8,
            derived: 4,
        },
        "Clash edge 0 rate 4 8",
    )?;
    says(
        &rt,
        rt.alloc(),
        Refusal::Clash {
            by: Rule::Block(2),
            prop: Prop::Item,
            held: 4,
            derived: 8,
        },
        "Clash block 2 item 4 8",
    )?;
    says(
        &rt,
        rt.alloc(),
        Refusal::NotWhole {
            block: 1,
            value: 1_000_000,
        },
        "NotWhole block 1 1000000",
    )?;
    says(
        &rt,
        rt.alloc(),
        Refusal::Unsettled {
            at: PropAt {
                block: 0,
                side: Side::Out,
                port: 0,
                prop: Prop::Spp,
            },
        },
        "Unsettled block 0 out 0 spp",
    )?;
    says(
        &rt,
        rt.alloc(),
        Refusal::Unsettled {
            at: PropAt {
                block: 3,
                side: Side::Into,
                port: 1,
                prop: Prop::Rate,
            },
        },
        "Unsettled block 3 in 1 rate",
    )?;
    Ok(())
}

#[test]
fn refusals_of_runs_are_told(rt: HostRuntime) -> Result<(), Fail> {
    says(&rt, rt.alloc(), Refusal::NotCommitted, "NotCommitted")?;
    says(
        &rt,
        rt.alloc(),
        Refusal::OpenPort { block: 2 },
        "OpenPort 2",
    )?;
    says(
        &rt,
        rt.alloc(),
        Refusal::Unrouted { stream: 1 },
        "Unrouted 1",
    )?;
    says(&rt, rt.alloc(), Refusal::TooBig { stream: 0 }, "TooBig 0")?;
    says(&rt, rt.alloc(), Refusal::TooMuch { stream: 5 }, "TooMuch 5")?;
    says(&rt, rt.alloc(), Refusal::BadCut { link: 0 }, "BadCut 0")?;
    says(
        &rt,
        rt.alloc(),
        Refusal::TwinKind { block: 4 },
        "TwinKind 4",
    )?;
    says(
        &rt,
        rt.alloc(),
        Refusal::NoStream { stream: 1 },
        "NoStream 1",
    )?;
    says(&rt, rt.alloc(), Refusal::NotBuilt, "NotBuilt")?;
    Ok(())
}
