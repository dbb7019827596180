ghost use Rattle.std.specs.Prelude.{◌+◌, ◌≤◌, OnOk, IfOk, IfErr};
ghost use Rattle.graph_core.specs.Derivation.{IsDerivation, IsClosed, Settles};
ghost use Rattle.graph_core.specs.State.{IsDiagram};
ghost use Rattle.property_resolver.specs.Causes.{IsCause};
ghost use Rattle.property_resolver.specs.Joined.{AreOf};
ghost use Rattle.property_resolver.specs.Spreads.{HasAll};
ghost use Rattle.property_resolver.specs.Work.{most_work};

use crate::joins::Joins;
use crate::missing::missing;
use crate::spread::spread;
use crate::start::users_values;
use crate::{CommitFault, Steps};
use graph_core::{Graph, Values};
use std::sync::ledger::Ledger;

/// Gives each value on, the new ones last, until nothing new comes.
fn close<L: Ledger>(
    graph: &Graph,
    joins: &Joins,
    values: &mut Values,
    steps: &mut Steps<L>,
) -> Result<(), CommitFault>
    requires joins { AreOf joins.now graph.now.diagram.edges }
    requires diagram { IsDiagram graph.now.diagram }
    requires derived { IsDerivation graph.now.diagram values.old }
    requires users { HasAll graph.now.diagram.users values.old }
    ensures closed { OnOk result (IsClosed graph.now.diagram values.new) }
    ensures cause { IfErr result (IsCause graph.now.diagram) }
    ensures rises { steps.old ≤ steps.new }
    ensures cost { steps.new ≤ steps.old + most_work graph.now.diagram }
{
    let mut next = 0;
    while let Some((at, value)) = values.pair(next) {
        spread(graph, joins, values, at, value, steps)?;
        next += 1;
    }
    Ok(())
}

/// The values that settle the graph, or why none do.
pub(crate) fn derive<L: Ledger>(graph: &Graph, steps: &mut Steps<L>) -> Result<Values, CommitFault>
    ensures settles { IfOk result (Settles graph.now.diagram) }
    ensures cause { IfErr result (IsCause graph.now.diagram) }
    ensures rises { steps.old ≤ steps.new }
    ensures cost { steps.new ≤ steps.old + most_work graph.now.diagram }
{
    let kinds = graph.kinds().as_slice();
    let mut values = users_values(graph)?;
    close(graph, &Joins::of(graph), &mut values, steps)?;
    match missing(&values, kinds) {
        Some(at) => Err(CommitFault::Unsettled { at }),
        None => Ok(values),
    }
}
