ghost use Rattle.std.specs.Prelude.{IfOk, OnOk};
ghost use Rattle.graph_core.specs.Derivation.{IsDerivation};
ghost use Rattle.property_resolver.specs.Spreads.{Keeps, HasAll};

use graph_core::{Graph, PropAt, Values};
use rf_base::Memory;

/// Adds the pair, unless the property has a value.
fn keep(values: &mut Values, at: PropAt, value: u64) -> Result<(), Memory>
    ensures { OnOk result (Keeps values.old values.new at value) }
{
    match values.get(at) {
        Some(_) => Ok(()),
        None => values.put(at, value),
    }
}

/// The values that the user set, with which each derivation may begin.
pub(crate) fn users_values(graph: &Graph) -> Result<Values, Memory>
    ensures derivation { IfOk result (IsDerivation graph.now.diagram) }
    ensures users { IfOk result (HasAll graph.now.diagram.users) }
{
    let users = graph.users();
    let mut values = graph.no_values();
    for place in 0..users.len() {
        if let Some((at, value)) = users.pair(place) {
            keep(&mut values, at, value)?;
        }
    }
    Ok(values)
}
