//! The slow plain program: sweeps over all pairs of properties until nothing new comes.
ghost use Rattle.std.specs.Prelude.{◌<◌};

use super::{add, link, property, resolve, set, value};
use block_library::BlockKind;
use graph_core::{Graph, Prop, PropAt, Side, Values, port_count};
use property_resolver::CommitFault;
use rf_base::Memory;
use std::alloc::Global;
use std::test::Fail;

/// The contradictions that the sweeps met.
#[derive(Clone, Copy, Debug, PartialEq, Eq)]
struct Met {
    clash: bool,
    not_whole: bool,
}

/// What the sweeps found: values for all, contradictions, or the first property that lacks a value.
#[derive(Clone, Copy, Debug, PartialEq, Eq)]
enum Found {
    Settled,
    Contrary(Met),
    Missing(PropAt),
}

/// Every property of the graph, in order.
fn properties(alloc: Global, graph: &Graph) -> Result<Vec<PropAt>, Memory> {
    let mut all = Vec::new(alloc);
    let mut block = 0u16;
    for kind in graph.kinds().as_slice() {
        for side in [Side::Into, Side::Out] {
            for port in 0..port_count(*kind, side) {
                for prop in [Prop::Rate, Prop::Item, Prop::Spp] {
                    all.push(property(block, side, port, prop))?;
                }
            }
        }
        block = block.wrapping_add(1);
    }
    Ok(all)
}

/// Rates on the two sides of a block are in the proportion of its weights.
fn weight(kind: BlockKind, side: Side) -> u64 {
    match (kind, side) {
        (BlockKind::Keep(n), Side::Into) | (BlockKind::Repeat(n), Side::Out) => n as u64,
        (BlockKind::Keep(_), Side::Out) | (BlockKind::Repeat(_), Side::Into) => 1,
        (BlockKind::Tx | BlockKind::Rx | BlockKind::Fifo | BlockKind::Split, _) => 1,
        (BlockKind::Replay(_) | BlockKind::Switch(_) | BlockKind::Sink, _) => 1,
    }
}

fn in_proportion(kind: BlockKind, from: PropAt, to: PropAt, value: u64) -> Option<u64> {
    let (near, far) = match from.prop {
        Prop::Rate => (weight(kind, from.side), weight(kind, to.side)),
        Prop::Item | Prop::Spp => (1, 1),
    };
    if near == far {
        return Some(value);
    }
    let times = value.checked_mul(far)?;
    if times.checked_rem(near)? != 0 {
        return None;
    }
    times.checked_div(near)
}

/// Whether an edge joins the two properties.
fn joined(graph: &Graph, from: PropAt, to: PropAt) -> bool {
    for edge in graph.edges().as_slice() {
        let output = property(edge.from.block, Side::Out, edge.from.port, from.prop);
        let input = property(edge.to.block, Side::Into, edge.to.port, from.prop);
        if (from == output && to == input) || (from == input && to == output) {
            return true;
        }
    }
    false
}

/// The table takes the value up, or the one that it has clashes with it.
fn meet(values: &mut Values, at: PropAt, value: u64, met: &mut Met) -> Result<(), Memory> {
    match values.get(at) {
        Some(held) => {
            met.clash = met.clash || held != value;
            Ok(())
        }
        None => values.put(at, value),
    }
}

/// Applies what joins the two properties.
fn apply(
    graph: &Graph,
    values: &mut Values,
    from: PropAt,
    to: PropAt,
    met: &mut Met,
) -> Result<(), Memory> {
    let Some(value) = values.get(from) else {
        return Ok(());
    };
    if joined(graph, from, to) {
        meet(values, to, value, met)?;
    }
    if from.block == to.block && from.prop == to.prop {
        if let Some(kind) = graph.kinds().as_slice().get(from.block as usize) {
            match in_proportion(*kind, from, to, value) {
                Some(given) => meet(values, to, given, met)?,
                None => met.not_whole = true,
            }
        }
    }
    Ok(())
}

/// One sweep over all pairs of properties.
fn sweep(graph: &Graph, all: &[PropAt], values: &mut Values, met: &mut Met) -> Result<(), Memory> {
    for from in all {
        for to in all {
            apply(graph, values, *from, *to, met)?;
        }
    }
    Ok(())
}

/// Sweeps until nothing new comes, past contradictions too.
fn sweeps(graph: &Graph, all: &[PropAt], values: &mut Values) -> Result<Found, Memory> {
    for at in all {
        if let Some(value) = graph.user(*at) {
            values.put(*at, value)?;
        }
    }
    let mut met = Met {
        clash: false,
        not_whole: false,
    };
    for _ in 0..=all.len() {
        let before = values.len();
        sweep(graph, all, values, &mut met)?;
        if values.len() == before {
            break;
        }
    }
    if met.clash || met.not_whole {
        return Ok(Found::Contrary(met));
    }
    for at in all {
        if values.get(*at).is_none() {
            return Ok(Found::Missing(*at));
        }
    }
    Ok(Found::Settled)
}

/// Numbers that look like chance, the same at each run.
#[derive(Drop)]
struct Dice {
    state: u64,
}

impl Dice {
    fn roll(&mut self, sides: u64) -> u64
        requires { 0 < sides }
        ensures { result < sides }
    {
        self.state = self
            .state
            .wrapping_mul(6_364_136_223_846_793_005)
            .wrapping_add(1_442_695_040_888_963_407);
        (self.state >> 33) % sides
    }
}

fn any_kind(dice: &mut Dice) -> BlockKind {
    match dice.roll(9) {
        0 => BlockKind::Tx,
        1 => BlockKind::Rx,
        2 => BlockKind::Fifo,
        3 => BlockKind::Split,
        4 => BlockKind::Keep(2),
        5 => BlockKind::Repeat(2),
        6 => BlockKind::Replay(2),
        7 => BlockKind::Switch(1),
        _ => BlockKind::Sink,
    }
}

fn any_block(dice: &mut Dice) -> u16 {
    dice.roll(5) as u16
}

fn any_port(dice: &mut Dice) -> u16 {
    dice.roll(2) as u16
}

fn any_side(dice: &mut Dice) -> Side {
    match dice.roll(2) {
        0 => Side::Into,
        _ => Side::Out,
    }
}

/// Sets item and spp at both sides of the block, and the rate of some blocks at one.
fn set_any(graph: &mut Graph, dice: &mut Dice, block: u16) {
    for side in [Side::Into, Side::Out] {
        for prop in [Prop::Item, Prop::Spp] {
            set(graph, property(block, side, 0, prop), 4);
        }
    }
    if dice.roll(2) == 0 {
        let side = any_side(dice);
        set(
            graph,
            property(block, side, 0, Prop::Rate),
            1 + dice.roll(4),
        );
    }
}

fn any_graph(alloc: Global, dice: &mut Dice) -> Result<Graph, Memory> {
    let mut graph = Graph::new(alloc);
    for _ in 0..2 + dice.roll(3) {
        add(&mut graph, any_kind(dice))?;
    }
    for _ in 0..12u32 {
        let ends = (
            any_block(dice),
            any_port(dice),
            any_block(dice),
            any_port(dice),
        );
        link(&mut graph, ends);
    }
    for block in 0..5u16 {
        set_any(&mut graph, dice, block);
    }
    Ok(graph)
}

/// The contradictions among what was found.
fn met_in(found: Found) -> Met {
    match found {
        Found::Contrary(met) => met,
        Found::Settled | Found::Missing(_) => Met {
            clash: false,
            not_whole: false,
        },
    }
}

/// Whether the commit and the sweeps agree, values and refusals.
///
/// Where the sweeps met one kind of contradiction, the commit must name it; where they met both,
/// the order of the values decides which is named. After a clash another order may also come to a
/// rate that isn't whole where the sweeps met none, though on none of these graphs.
fn agree(
    graph: &Graph,
    all: &[PropAt],
    values: &Values,
    answer: Result<(), CommitFault>,
    found: Found,
) -> bool {
    match answer {
        Ok(()) => {
            for at in all {
                if value(graph, *at) != values.get(*at) {
                    return false;
                }
            }
            found == Found::Settled
        }
        Err(CommitFault::Clash { held, derived, .. }) => held != derived && met_in(found).clash,
        Err(CommitFault::NotWhole { .. }) => met_in(found).not_whole,
        Err(CommitFault::Unsettled { at }) => found == Found::Missing(at),
        Err(CommitFault::Memory) => false,
    }
}

#[test]
fn the_worklist_agrees_with_plain_sweeps(rt: HostRuntime) -> Result<(), Fail> {
    let mut dice = Dice { state: 7 };
    let mut seen = [false; 5];
    for _ in 0..150 {
        let mut graph = any_graph(rt.alloc(), &mut dice)?;
        let all = properties(rt.alloc(), &graph)?;
        let mut values = Values::new(rt.alloc());
        let found = sweeps(&graph, all.as_slice(), &mut values)?;
        let (result, _) = resolve(&mut graph);
        assert!(rt; agree(&graph, all.as_slice(), &values, result, found));
        match found {
            Found::Settled => seen[0] = true,
            Found::Missing(_) => seen[1] = true,
            Found::Contrary(met) => {
                seen[2] = seen[2] || (met.clash && !met.not_whole);
                seen[3] = seen[3] || (!met.clash && met.not_whole);
                seen[4] = seen[4] || (met.clash && met.not_whole);
            }
        }
    }
    assert_eq!(rt; seen, [true; 5]);
    Ok(())
}
