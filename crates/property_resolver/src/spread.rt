ghost use Rattle.std.specs.Prelude.{◌≡◌, ◌+◌, ◌≤◌, Contains, OnOk, IfErr, slice_get, Some};
ghost use Rattle.block_library.specs.Blocks.{FitsKind};
ghost use Rattle.graph_core.specs.Derivation.{IsDerivation, IsSpread};
ghost use Rattle.property_resolver.specs.Causes.{IsCause};
ghost use Rattle.property_resolver.specs.Joined.{AreOf, far_end};
ghost use Rattle.property_resolver.specs.Spreads.{AllEdgesSpread, Grows, SideSpread};
ghost use Rattle.property_resolver.specs.Work.{edge_work};

use crate::joins::Joins;
use crate::learn::learn;
use crate::rule::{across, carried};
use crate::{CommitFault, Steps};
use block_library::BlockKind;
use graph_core::{Edge, Graph, PropAt, Rule, Side, Values, port_count};
use std::sync::ledger::Ledger;

/// Applies the edge at the property, if there is one, to its value.
fn spread_edges<L: Ledger>(
    graph: &Graph,
    joins: &Joins,
    values: &mut Values,
    at: PropAt,
    value: u64,
    steps: &mut Steps<L>,
) -> Result<(), CommitFault>
    requires joins { AreOf joins.now graph.now.diagram.edges }
    requires derived { IsDerivation graph.now.diagram values.old }
    requires held { Contains values.old (at, value) }
    ensures grows { OnOk result (Grows graph.now.diagram values.old values.new) }
    ensures spread { OnOk result (AllEdgesSpread graph.now.diagram values.new at value) }
    ensures cause { IfErr result (IsCause graph.now.diagram) }
    ensures rises { steps.old ≤ steps.new }
    ensures cost { steps.new ≤ steps.old + edge_work graph.now.diagram.edges at }
{
    let Some(number) = joins.at(at) else {
        return Ok(());
    };
    let Some(to) = far_end(graph.edges().as_slice(), number, at) else {
        return Ok(());
    };
    steps.tick();
    learn(values, Rule::Edge(number), to, value)?;
    Ok(())
}

/// The property at the other end of the edge of that number.
fn far_end(edges: &[Edge], number: u16, at: PropAt) -> Option<PropAt>
    ensures { result ≡ far_end edges.now number at }
{
    match edges.get(number as usize) {
        Some(edge) => across(edge, at),
        None => None,
    }
}

/// Gives the value on to each port on one side of the property's block.
fn spread_side(
    graph: &Graph,
    kind: BlockKind,
    side: Side,
    values: &mut Values,
    at: PropAt,
    value: u64,
) -> Result<(), CommitFault>
    requires derived { IsDerivation graph.now.diagram values.old }
    requires held { Contains values.old (at, value) }
    requires stands { slice_get graph.now.diagram.kinds at.block ≡ Some kind }
    requires kind { FitsKind kind }
    ensures grows { OnOk result (Grows graph.now.diagram values.old values.new) }
    ensures spread { OnOk result (SideSpread kind side values.new at value) }
    ensures cause { IfErr result (IsCause graph.now.diagram) }
{
    for port in 0..port_count(kind, side) {
        let Some(derived) = carried(kind, at.prop, at.side, side, value) else {
            return Err(CommitFault::NotWhole {
                block: at.block,
                value,
            });
        };
        let to = PropAt {
            block: at.block,
            side,
            port,
            prop: at.prop,
        };
        learn(values, Rule::Block(at.block), to, derived)?;
    }
    Ok(())
}

/// The kind of the block of that number.
fn kind_of(kinds: &[BlockKind], block: u16) -> Option<BlockKind>
    ensures { result ≡ slice_get kinds.now block }
{
    kinds.get(block as usize).copied()
}

/// Gives the value on by the edges at the property and by its block.
pub(crate) fn spread<L: Ledger>(
    graph: &Graph,
    joins: &Joins,
    values: &mut Values,
    at: PropAt,
    value: u64,
    steps: &mut Steps<L>,
) -> Result<(), CommitFault>
    requires joins { AreOf joins.now graph.now.diagram.edges }
    requires derived { IsDerivation graph.now.diagram values.old }
    requires held { Contains values.old (at, value) }
    ensures grows { OnOk result (Grows graph.now.diagram values.old values.new) }
    ensures spread { OnOk result (IsSpread graph.now.diagram values.new at value) }
    ensures cause { IfErr result (IsCause graph.now.diagram) }
    ensures rises { steps.old ≤ steps.new }
    ensures cost { steps.new ≤ steps.old + (1 + edge_work graph.now.diagram.edges at) }
{
    spread_edges(graph, joins, values, at, value, steps)?;
    steps.tick();
    let Some(kind) = kind_of(graph.kinds().as_slice(), at.block) else {
        return Ok(());
    };
    spread_side(graph, kind, Side::Into, values, at, value)?;
    spread_side(graph, kind, Side::Out, values, at, value)?;
    Ok(())
}
