use chdr_words::Epid;
use net_topology::{LinkNumbers, LinkPlan, NodePlan, Plan, PlanFault, Topology};
use rf_base::{Items, Memory};
use std::alloc::Global;
use std::test::Fail;

type Ends = (u16, u8, u16, u8);

const fn host(epid: u16) -> NodePlan {
    NodePlan::Host { epid: Epid(epid) }
}

const fn endpoint(epid: u16) -> NodePlan {
    NodePlan::Endpoint {
        epid: Epid(epid),
        bank: Some(1),
    }
}

const fn crossbar(ports: u8) -> NodePlan {
    NodePlan::Crossbar { ports }
}

fn link((a, a_port, b, b_port): Ends) -> LinkPlan {
    LinkPlan {
        a,
        a_port,
        b,
        b_port,
    }
}

fn plan(alloc: Global, nodes: &[NodePlan], links: &[Ends], room: u32) -> Result<Plan, Memory> {
    let mut list = Items::new(alloc);
    for ends in links {
        list.push(link(*ends))?;
    }
    Ok(Plan {
        nodes: Items::from_vec(Vec::from_slice(alloc, nodes)?),
        links: list,
        room,
        limit: 64,
    })
}

/// Checks a plan whose nodes fit.
fn checked(alloc: Global, plan: &Plan) -> Result<Topology, PlanFault> {
    if !plan.fits() {
        return Err(PlanFault::Memory);
    }
    Topology::check(alloc, plan)
}

fn fault_of(
    alloc: Global,
    nodes: &[NodePlan],
    links: &[Ends],
    room: u32,
) -> Result<Option<PlanFault>, Memory> {
    Ok(checked(alloc, &plan(alloc, nodes, links, room)?).err())
}

/// The way between two nodes, or no link where one isn't there.
fn way(alloc: Global, topology: &Topology, a: u16, b: u16) -> Result<LinkNumbers, Memory> {
    if topology.has_node(a) && topology.has_node(b) {
        topology.path(a, b)
    } else {
        Ok(Items::new(alloc))
    }
}

#[test]
fn three_crossbars_in_a_ring_are_no_tree(rt: HostRuntime) -> Result<(), Fail> {
    let ring = [(0, 0, 1, 0), (1, 1, 2, 0), (2, 1, 0, 1)];
    let fault = fault_of(rt.alloc(), &[crossbar(2); 3], &ring, 4)?;
    assert_eq!(rt; fault, Some(PlanFault::Cycle { link: 2 }));
    Ok(())
}

#[test]
fn an_empty_plan_is_a_tree_if_its_room_is_good(rt: HostRuntime) -> Result<(), Fail> {
    assert_eq!(rt; fault_of(rt.alloc(), &[], &[], 1)?, None);
    assert_eq!(rt; fault_of(rt.alloc(), &[], &[], 64)?, None);
    for room in [0, 65] {
        let fault = fault_of(rt.alloc(), &[], &[], room)?;
        assert_eq!(rt; fault, Some(PlanFault::BadLinkRoom { room }));
    }
    Ok(())
}

/// What is returned for n hosts without links in a network of at most `limit` nodes.
fn fault_of_hosts(alloc: Global, n: u16, limit: u32) -> Result<Option<PlanFault>, Memory> {
    let mut plan = plan(alloc, &[], &[], 4)?;
    plan.limit = limit;
    for k in 0..n.min(1000) {
        plan.nodes.push(host(k + 1))?;
    }
    Ok(checked(alloc, &plan).err())
}

#[test]
fn a_plan_has_no_more_nodes_than_its_limit(rt: HostRuntime) -> Result<(), Fail> {
    let alloc = rt.alloc();
    let apart = Some(PlanFault::Apart { node: 1 });
    for (n, limit, wanted) in [
        (64, 64, apart),
        (65, 64, Some(PlanFault::TooManyNodes { count: 65 })),
        (65, 256, apart),
        (256, 256, apart),
        (257, 256, Some(PlanFault::TooManyNodes { count: 257 })),
        (1, 0, Some(PlanFault::TooManyNodes { count: 1 })),
    ] {
        assert_eq!(rt; fault_of_hosts(alloc, n, limit)?, wanted, "{n} of {limit}");
    }
    Ok(())
}

#[test]
fn a_refusal_says_its_number(rt: HostRuntime) -> Result<(), Fail> {
    for (fault, text) in [
        (PlanFault::TooManyNodes { count: 65 }, "TooManyNodes 65"),
        (
            PlanFault::DuplicateEpid { epid: Epid(7) },
            "DuplicateEpid 7",
        ),
        (PlanFault::BadPort { link: 3 }, "BadPort 3"),
        (PlanFault::PortTwice { link: 4 }, "PortTwice 4"),
        (PlanFault::Cycle { link: 2 }, "Cycle 2"),
        (PlanFault::Apart { node: 1 }, "Apart 1"),
        (PlanFault::BadLinkRoom { room: 0 }, "BadLinkRoom 0"),
        (PlanFault::Memory, "out of memory"),
    ] {
        assert_eq!(rt; format!(in rt.alloc(); "{fault}")?.as_str(), text);
    }
    Ok(())
}

/// What can be wrong with a plan, in the order in which it is refused.
#[derive(Clone, Copy, PartialEq, Eq)]
enum Flaw {
    Many,
    Duplicate,
    Port,
    Twice,
    Ring,
    Apart,
    Room,
}

const FLAWS: [Flaw; 7] = [
    Flaw::Many,
    Flaw::Duplicate,
    Flaw::Port,
    Flaw::Twice,
    Flaw::Ring,
    Flaw::Apart,
    Flaw::Room,
];

/// Puts the flaw into a plan whose node 1 is a crossbar of 8 ports, two of them used.
fn spoil(plan: &mut Plan, flaw: Flaw) -> Result<(), Memory> {
    let next = plan.nodes.len().min(1000) as u16;
    match flaw {
        Flaw::Many => {
            for _ in 0..64 {
                plan.nodes.push(NodePlan::Adapter)?;
            }
        }
        Flaw::Duplicate => {
            plan.nodes.push(endpoint(1))?;
            plan.links.push(link((1, 2, next, 0)))?;
        }
        Flaw::Port => plan.links.push(link((0, 0, 1, 8)))?,
        Flaw::Twice => plan.links.push(link((1, 1, 1, 3)))?,
        Flaw::Ring => plan.links.push(link((1, 4, 1, 5)))?,
        Flaw::Apart => plan.nodes.push(NodePlan::Adapter)?,
        Flaw::Room => plan.room = 65,
    }
    Ok(())
}

/// The refusal of a plan whose first flaw this is: three nodes and two links stand before it.
fn refusal(flaw: Flaw, count: u32) -> PlanFault {
    match flaw {
        Flaw::Many => PlanFault::TooManyNodes { count },
        Flaw::Duplicate => PlanFault::DuplicateEpid { epid: Epid(1) },
        Flaw::Port => PlanFault::BadPort { link: 2 },
        Flaw::Twice => PlanFault::PortTwice { link: 2 },
        Flaw::Ring => PlanFault::Cycle { link: 2 },
        Flaw::Apart => PlanFault::Apart { node: 3 },
        Flaw::Room => PlanFault::BadLinkRoom { room: 65 },
    }
}

/// What is returned for a plan with these flaws, or with one if they are the same, and what
/// should be.
fn answers(
    alloc: Global,
    first: Flaw,
    second: Flaw,
) -> Result<(Option<PlanFault>, PlanFault), Memory> {
    let nodes = [host(1), crossbar(8), host(2)];
    let mut plan = plan(alloc, &nodes, &[(0, 0, 1, 0), (1, 1, 2, 0)], 4)?;
    spoil(&mut plan, first)?;
    if second != first {
        spoil(&mut plan, second)?;
    }
    let count = plan.nodes.len().min(1000) as u32;
    Ok((checked(alloc, &plan).err(), refusal(first, count)))
}

#[test]
fn each_refusal_comes_alone_and_before_each_later_one(rt: HostRuntime) -> Result<(), Fail> {
    for at in 0..7 {
        for second in &FLAWS[at..] {
            let (answer, wanted) = answers(rt.alloc(), FLAWS[at], *second)?;
            assert_eq!(rt; answer, Some(wanted));
        }
    }
    Ok(())
}

/// What is returned if one more link stands behind two good ones.
fn fault_with(alloc: Global, ends: Ends) -> Result<Option<PlanFault>, Memory> {
    let nodes = [host(1), crossbar(8), host(2)];
    fault_of(alloc, &nodes, &[(0, 0, 1, 0), (1, 1, 2, 0), ends], 4)
}

#[test]
fn a_port_that_is_not_there_is_refused_first(rt: HostRuntime) -> Result<(), Fail> {
    for ends in [(1, 8, 0, 0), (1, 8, 1, 8), (3, 0, 1, 2), (1, 2, 2, 1)] {
        let fault = fault_with(rt.alloc(), ends)?;
        assert_eq!(rt; fault, Some(PlanFault::BadPort { link: 2 }));
    }
    Ok(())
}

#[test]
fn a_port_that_is_used_is_refused_before_a_ring(rt: HostRuntime) -> Result<(), Fail> {
    for ends in [(1, 0, 1, 1), (1, 2, 2, 0), (0, 0, 1, 2)] {
        let fault = fault_with(rt.alloc(), ends)?;
        assert_eq!(rt; fault, Some(PlanFault::PortTwice { link: 2 }));
    }
    Ok(())
}

#[test]
fn an_earlier_link_is_refused_before_a_later_one(rt: HostRuntime) -> Result<(), Fail> {
    let links = [(0, 0, 1, 0), (1, 1, 1, 2), (1, 9, 2, 0)];
    let fault = fault_of(rt.alloc(), &[host(1), crossbar(8), host(2)], &links, 4)?;
    assert_eq!(rt; fault, Some(PlanFault::Cycle { link: 1 }));
    Ok(())
}

/// A line of up to 256 adapters: node k is linked to node k + 1.
fn line(alloc: Global, nodes: u16) -> Result<Topology, PlanFault> {
    let mut plan = plan(alloc, &[], &[], 4)?;
    plan.limit = 256;
    for k in 0..nodes.min(256) {
        plan.nodes.push(NodePlan::Adapter)?;
        if k > 0 {
            plan.links.push(link((k - 1, 1, k, 0)))?;
        }
    }
    checked(alloc, &plan)
}

/// The first link of the way between two nodes, if there is one.
fn next(topology: &Topology, a: u16, b: u16) -> Option<u16> {
    if topology.has_node(a) && topology.has_node(b) {
        topology.next(a, b)
    } else {
        None
    }
}

#[test]
fn the_first_links_along_a_line_of_256_nodes(rt: HostRuntime) -> Result<(), Fail> {
    let line = line(rt.alloc(), 256).map_err(|_| Memory)?;
    for a in 0u16..256 {
        for b in 0u16..256 {
            let wanted = if a == b {
                None
            } else if a < b {
                Some(2 * a)
            } else {
                Some(2 * a - 1)
            };
            assert_eq!(rt; next(&line, a, b), wanted, "from {a} to {b}");
        }
    }
    Ok(())
}

#[test]
fn the_way_along_a_line_is_every_link(rt: HostRuntime) -> Result<(), Fail> {
    let line = line(rt.alloc(), 64).map_err(|_| Memory)?;
    let there = way(rt.alloc(), &line, 0, 63)?;
    assert_eq!(rt; there.len(), 63);
    for (k, link) in there.as_slice().iter().enumerate() {
        assert_eq!(rt; *link as usize, k * 2);
    }
    Ok(())
}

#[test]
fn the_way_back_along_a_line_is_every_link_back(rt: HostRuntime) -> Result<(), Fail> {
    let line = line(rt.alloc(), 64).map_err(|_| Memory)?;
    let back = way(rt.alloc(), &line, 63, 0)?;
    assert_eq!(rt; back.len(), 63);
    for (k, link) in back.as_slice().iter().rev().enumerate() {
        assert_eq!(rt; *link as usize, k * 2 + 1);
    }
    Ok(())
}

#[test]
fn the_way_to_the_same_node_is_empty(rt: HostRuntime) -> Result<(), Fail> {
    let line = line(rt.alloc(), 64).map_err(|_| Memory)?;
    assert_eq!(rt; way(rt.alloc(), &line, 7, 7)?.len(), 0);
    Ok(())
}

/// A crossbar with 32 hosts; the host at port k has EPID k + 1.
fn star(alloc: Global) -> Result<Topology, PlanFault> {
    let mut plan = plan(alloc, &[crossbar(32)], &[], 4)?;
    for port in 0u8..32 {
        let node = port as u16 + 1;
        plan.nodes.push(host(node))?;
        plan.links.push(link((0, port, node, 0)))?;
    }
    checked(alloc, &plan)
}

#[test]
fn the_ways_of_a_star_cross_its_middle(rt: HostRuntime) -> Result<(), Fail> {
    let star = star(rt.alloc()).map_err(|_| Memory)?;
    assert_eq!(rt;
        way(rt.alloc(), &star, 1, 32)?.as_slice(),
        [1, 62].as_slice()
    );
    assert_eq!(rt; way(rt.alloc(), &star, 0, 5)?.as_slice(), [8].as_slice());
    Ok(())
}

#[test]
fn a_port_has_a_neighbour_if_it_has_a_link(rt: HostRuntime) -> Result<(), Fail> {
    let star = star(rt.alloc()).map_err(|_| Memory)?;
    assert_eq!(rt; star.has_link(63) && !star.has_link(64), true);
    assert_eq!(rt; star.neighbour(0, 31), Some((32, 0)));
    assert_eq!(rt; star.neighbour(32, 0), Some((0, 31)));
    assert_eq!(rt; star.neighbour(0, 32), None);
    Ok(())
}

#[test]
fn an_epid_has_a_node_if_one_is_given_it(rt: HostRuntime) -> Result<(), Fail> {
    let star = star(rt.alloc()).map_err(|_| Memory)?;
    assert_eq!(rt; star.node_of(Epid(32)), Some(32));
    assert_eq!(rt; star.node_of(Epid(33)), None);
    assert_eq!(rt; star.plan().room, 4);
    Ok(())
}

#[test]
fn links_may_come_in_any_order(rt: HostRuntime) -> Result<(), Fail> {
    let nodes = [host(1), crossbar(2), NodePlan::Adapter, host(2)];
    let plan = plan(
        rt.alloc(),
        &nodes,
        &[(3, 0, 2, 1), (1, 0, 0, 0), (2, 0, 1, 1)],
        4,
    )?;
    let topology = checked(rt.alloc(), &plan).map_err(|_| Memory)?;
    assert_eq!(rt;
        way(rt.alloc(), &topology, 0, 3)?.as_slice(),
        [3, 5, 1].as_slice()
    );
    Ok(())
}
