ghost use Rattle.std.specs.Prelude.{◌≡◌, ◌+◌, ◌≤◌, OnOk, OnErr, IfErr};
ghost use Rattle.property_resolver.specs.Causes.{IsCause};
ghost use Rattle.property_resolver.specs.Outcome.{IsCommitted, OkWhereSettled, UnsettledWhereMissing};
ghost use Rattle.property_resolver.specs.Work.{most_work};

use crate::derive::derive;
use crate::{CommitFault, Steps};
use graph_core::Graph;
use std::sync::ledger::Ledger;

/// Derives all values from the user's and commits them; a refused graph stays as it was.
///
/// One step is the application of one edge or block to the value of one property at one of its
/// ports. Which of several clashes is named is left open. Rule: docs/graph.md, "Commit".
pub fn commit<L: Ledger>(graph: &mut Graph, steps: &mut Steps<L>) -> Result<(), CommitFault>
    ensures committed { OnOk result (IsCommitted graph.old graph.new) }
    ensures settled { OkWhereSettled graph.old.diagram result }
    ensures cause { IfErr result (IsCause graph.old.diagram) }
    ensures unsettled { UnsettledWhereMissing graph.old.diagram result }
    ensures kept { OnErr result (graph.new ≡ graph.old) }
    ensures rises { steps.old ≤ steps.new }
    ensures cost { steps.new ≤ steps.old + most_work graph.old.diagram }
{
    let values = derive(graph, steps)?;
    graph.settle(values);
    Ok(())
}
