ghost use Rattle.std.specs.Prelude.{◌≡◌, ◌<◌, Contains, IfOk, IsTrue};
ghost use Rattle.block_library.specs.Blocks.{FitsKind};

mod plain;

use block_library::BlockKind;
use graph_core::{ConnectFault, Edge, Graph, PortAt, Prop, PropAt, SetFault, Side};
use property_resolver::{CommitFault, Rule, Steps, commit};
use rf_base::Memory;
use std::alloc::Global;
use std::marker::Brand;
use std::sync::ledger::{Blank, Ledger};
use std::test::Fail;

/// A commit with a counter of its own, and its count.
fn counted<L: Ledger>(blank: Blank, graph: &mut Graph) -> (Result<(), CommitFault>, u64)
    requires name { blank.name ≡ L.name }
    requires parts { blank.parts ≡ L.parts }
    requires some { 0 < blank.parts }
{
    let mut steps = Steps::<L>::open(blank);
    let answer = commit(graph, &mut steps);
    (answer, steps.count())
}

fn resolve(graph: &mut Graph) -> (Result<(), CommitFault>, u64) {
    counted::<Brand>(Blank::new(1), graph)
}

/// Commits a graph, and reads the rates at both ends of one of its edges: they are the same.
fn rates_of<L: Ledger>(
    graph: &mut Graph,
    edge: Edge,
    steps: &mut Steps<L>,
) -> Result<(Option<u64>, Option<u64>), CommitFault>
    requires { Contains graph.old.diagram.edges edge }
    ensures { IfOk result (λ rates. rates.0 ≡ rates.1) }
{
    commit(graph, steps)?;
    let out = graph.value(property(edge.from.block, Side::Out, edge.from.port, Prop::Rate));
    let into = graph.value(property(edge.to.block, Side::Into, edge.to.port, Prop::Rate));
    Ok((out, into))
}

fn is_kind(kind: BlockKind) -> bool
    ensures { IsTrue result → FitsKind kind }
{
    match kind {
        BlockKind::Tx | BlockKind::Rx | BlockKind::Fifo | BlockKind::Split | BlockKind::Sink =>
            true,
        BlockKind::Keep(n) => 1 <= n && n <= 1024,
        BlockKind::Repeat(n) | BlockKind::Replay(n) => 1 <= n && n <= 16,
        BlockKind::Switch(n) => n <= 1,
    }
}

fn add(graph: &mut Graph, kind: BlockKind) -> Result<(), Memory> {
    if graph.kinds().len() < 32 && is_kind(kind) {
        graph.add(kind)?;
    }
    Ok(())
}

/// From an output, block and port, to an input.
type Link = (u16, u16, u16, u16);

fn connect(graph: &mut Graph, ends: Link) -> Result<u16, ConnectFault> {
    let from = PortAt {
        block: ends.0,
        port: ends.1,
    };
    let to = PortAt {
        block: ends.2,
        port: ends.3,
    };
    graph.connect(from, to)
}

fn link(graph: &mut Graph, ends: Link) -> bool {
    connect(graph, ends).is_ok()
}

fn set(graph: &mut Graph, at: PropAt, value: u64) -> bool {
    graph.set(at, value).is_ok()
}

fn value(graph: &Graph, at: PropAt) -> Option<u64> {
    graph.value(at)
}

fn property(block: u16, side: Side, port: u16, prop: Prop) -> PropAt
    ensures { result ≡ record { block = block; side = side; port = port; prop = prop } }
{
    PropAt {
        block,
        side,
        port,
        prop,
    }
}

fn rate_in(block: u16) -> PropAt {
    property(block, Side::Into, 0, Prop::Rate)
}

fn rate_out(block: u16) -> PropAt {
    property(block, Side::Out, 0, Prop::Rate)
}

/// A graph of these blocks and edges; block 0 has the rate, item 4 and spp 2 set at its output.
fn build(alloc: Global, kinds: &[BlockKind], links: &[Link], rate: u64) -> Result<Graph, Memory> {
    let mut graph = Graph::new(alloc);
    for kind in kinds {
        add(&mut graph, *kind)?;
    }
    for ends in links {
        link(&mut graph, *ends);
    }
    set(&mut graph, rate_out(0), rate);
    set(&mut graph, property(0, Side::Out, 0, Prop::Item), 4);
    set(&mut graph, property(0, Side::Out, 0, Prop::Spp), 2);
    Ok(graph)
}

/// Tx and Rx, one block between them.
fn line(alloc: Global, between: BlockKind, rate: u64) -> Result<Graph, Memory> {
    let kinds = [BlockKind::Tx, between, BlockKind::Rx];
    build(
        alloc,
        kinds.as_slice(),
        [(0, 0, 1, 0), (1, 0, 2, 0)].as_slice(),
        rate,
    )
}

/// Tx, split, two blocks side by side, switch, rx.
fn ring(alloc: Global, one: BlockKind, other: BlockKind) -> Result<Graph, Memory> {
    let kinds = [
        BlockKind::Tx,
        BlockKind::Split,
        one,
        other,
        BlockKind::Switch(1),
        BlockKind::Rx,
    ];
    let links = [
        (0, 0, 1, 0),
        (1, 0, 2, 0),
        (1, 1, 3, 0),
        (2, 0, 4, 0),
        (3, 0, 4, 1),
        (4, 0, 5, 0),
    ];
    build(alloc, kinds.as_slice(), links.as_slice(), 8)
}

fn not_whole(block: u16, value: u64) -> Result<(), CommitFault> {
    Err(CommitFault::NotWhole { block, value })
}

/// Whether the first edge's rates clash, 4 and 8 in either order.
fn is_clash(answer: Result<(), CommitFault>) -> bool {
    let clash = |held: u64, derived: u64| CommitFault::Clash {
        by: Rule::Edge(0),
        prop: Prop::Rate,
        held,
        derived,
    };
    answer == Err(clash(4, 8)) || answer == Err(clash(8, 4))
}

/// Whether two different rates clash.
fn is_rate_clash(answer: Result<(), CommitFault>) -> bool {
    match answer {
        Err(
            CommitFault::Clash {
                prop,
                held,
                derived,
                ..
            },
        ) => prop == Prop::Rate && held != derived,
        Err(CommitFault::NotWhole { .. } | CommitFault::Unsettled { .. }) => false,
        Ok(()) | Err(CommitFault::Memory) => false,
    }
}

#[test]
fn a_keep_divides_whole_rates_alone(rt: HostRuntime) -> Result<(), Fail> {
    let mut graph = line(rt.alloc(), BlockKind::Keep(3), 1_000_000)?;
    assert!(rt; resolve(&mut graph).0 == not_whole(1, 1_000_000));
    assert!(rt; set(&mut graph, rate_out(0), 999_999));
    assert!(rt; resolve(&mut graph).0 == Ok(()));
    assert!(rt; value(&graph, rate_in(2)) == Some(333_333));
    Ok(())
}

#[test]
fn a_product_past_the_largest_value_is_refused(rt: HostRuntime) -> Result<(), Fail> {
    let mut graph = line(rt.alloc(), BlockKind::Repeat(16), 1 << 60)?;
    assert!(rt; resolve(&mut graph).0 == not_whole(1, 1 << 60));
    assert!(rt; set(&mut graph, rate_out(0), (1 << 60) - 1));
    assert!(rt; resolve(&mut graph).0 == Ok(()));
    assert!(rt; value(&graph, rate_in(2)) == Some(18_446_744_073_709_551_600));
    Ok(())
}

#[test]
fn two_rates_at_an_edge_clash(rt: HostRuntime) -> Result<(), Fail> {
    let kinds = [BlockKind::Tx, BlockKind::Rx];
    let mut graph = build(rt.alloc(), kinds.as_slice(), [(0, 0, 1, 0)].as_slice(), 8)?;
    assert!(rt; resolve(&mut graph).0 == Ok(()));
    assert!(rt; set(&mut graph, rate_in(1), 4));
    assert!(rt; is_clash(resolve(&mut graph).0));
    assert!(rt; !graph.is_committed() && value(&graph, rate_in(1)) == Some(8));
    assert!(rt; set(&mut graph, rate_in(1), 8));
    assert!(rt; resolve(&mut graph).0 == Ok(()));
    Ok(())
}

#[test]
fn a_value_that_nothing_gives_is_named(rt: HostRuntime) -> Result<(), Fail> {
    let mut graph = Graph::new(rt.alloc());
    add(&mut graph, BlockKind::Tx)?;
    add(&mut graph, BlockKind::Rx)?;
    let at = property(0, Side::Out, 0, Prop::Spp);
    assert!(rt; link(&mut graph, (0, 0, 1, 0)) && set(&mut graph, rate_out(0), 1_000_000));
    assert!(rt; set(&mut graph, property(1, Side::Into, 0, Prop::Item), 4));
    assert!(rt; resolve(&mut graph).0 == Err(CommitFault::Unsettled { at }));
    assert!(rt; set(&mut graph, at, 2));
    assert!(rt; resolve(&mut graph).0 == Ok(()) && graph.is_committed());
    assert!(rt; value(&graph, property(0, Side::Out, 0, Prop::Item)) == Some(4));
    Ok(())
}

#[test]
fn two_ways_that_differ_clash(rt: HostRuntime) -> Result<(), Fail> {
    let mut graph = ring(rt.alloc(), BlockKind::Fifo, BlockKind::Keep(2))?;
    assert!(rt; is_rate_clash(resolve(&mut graph).0) && !graph.is_committed());
    Ok(())
}

#[test]
fn two_ways_that_agree_commit(rt: HostRuntime) -> Result<(), Fail> {
    let mut graph = ring(rt.alloc(), BlockKind::Keep(4), BlockKind::Keep(4))?;
    assert!(rt; resolve(&mut graph).0 == Ok(()));
    assert!(rt; value(&graph, property(4, Side::Into, 1, Prop::Rate)) == Some(2));
    assert!(rt; value(&graph, rate_in(5)) == Some(2));
    Ok(())
}

#[test]
fn a_graph_of_no_blocks_commits(rt: HostRuntime) -> Result<(), Fail> {
    let mut graph = Graph::new(rt.alloc());
    assert!(rt; resolve(&mut graph) == (Ok(()), 0));
    assert!(rt; graph.is_committed());
    Ok(())
}

#[test]
fn the_last_value_set_counts(rt: HostRuntime) -> Result<(), Fail> {
    let mut graph = build(rt.alloc(), [BlockKind::Tx].as_slice(), [].as_slice(), 8)?;
    assert!(rt; set(&mut graph, rate_out(0), 4));
    assert!(rt; graph.user(rate_out(0)) == Some(4));
    assert!(rt; resolve(&mut graph).0 == Ok(()));
    assert!(rt; value(&graph, rate_out(0)) == Some(4));
    Ok(())
}

#[test]
fn a_line_of_three_takes_24_steps_at_most(rt: HostRuntime) -> Result<(), Fail> {
    let mut graph = line(rt.alloc(), BlockKind::Fifo, 8)?;
    let (answer, count) = resolve(&mut graph);
    assert!(rt; answer == Ok(()) && count <= 24);
    Ok(())
}

#[test]
fn a_chain_of_32_blocks_commits(rt: HostRuntime) -> Result<(), Fail> {
    let mut graph = build(rt.alloc(), [BlockKind::Tx].as_slice(), [].as_slice(), 8)?;
    for block in 0..30u16 {
        add(&mut graph, BlockKind::Fifo)?;
        assert!(rt; link(&mut graph, (block, 0, block + 1, 0)));
    }
    add(&mut graph, BlockKind::Rx)?;
    assert!(rt; link(&mut graph, (30, 0, 31, 0)));
    let (answer, count) = resolve(&mut graph);
    assert!(rt; answer == Ok(()) && count <= 3 * 62 + 6 * 31);
    assert!(rt; value(&graph, property(31, Side::Into, 0, Prop::Spp)) == Some(2));
    Ok(())
}

/// A switch and a split after it, with free ports between which an edge would close a cycle.
fn pair(alloc: Global) -> Result<Graph, Memory> {
    let kinds = [BlockKind::Switch(0), BlockKind::Split];
    build(alloc, kinds.as_slice(), [(0, 0, 1, 0)].as_slice(), 8)
}

#[test]
fn a_refused_change_leaves_the_graph_committed(rt: HostRuntime) -> Result<(), Fail> {
    let mut graph = pair(rt.alloc())?;
    assert!(rt; resolve(&mut graph).0 == Ok(()));
    for (ends, want) in [
        ((0, 1, 1, 0), ConnectFault::BadPort),
        ((0, 0, 0, 1), ConnectFault::PortTaken),
        ((1, 0, 0, 1), ConnectFault::Cycle),
    ] {
        assert!(rt; connect(&mut graph, ends) == Err(want) && graph.is_committed());
        assert!(rt; resolve(&mut graph).0 == Ok(()));
    }
    assert!(rt; graph.set(rate_in(2), 8) == Err(SetFault::NoProperty) && graph.is_committed());
    assert!(rt; resolve(&mut graph).0 == Ok(()) && value(&graph, rate_in(0)) == Some(8));
    Ok(())
}

#[test]
fn a_change_leaves_the_values_of_the_last_commit(rt: HostRuntime) -> Result<(), Fail> {
    let mut graph = pair(rt.alloc())?;
    assert!(rt; resolve(&mut graph).0 == Ok(()));
    assert!(rt; set(&mut graph, rate_in(1), 8) && !graph.is_committed());
    assert!(rt; resolve(&mut graph).0 == Ok(()));
    add(&mut graph, BlockKind::Tx)?;
    assert!(rt; !graph.is_committed() && value(&graph, rate_in(1)) == Some(8));
    Ok(())
}
