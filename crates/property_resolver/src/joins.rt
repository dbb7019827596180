ghost use Rattle.std.specs.Prelude.{◌≡◌, ◌<◌, ◌≤◌, ◌+◌, ◌*◌, ℕ, Some, None, length, slice_get, slice_index_or};
ghost use Rattle.graph_core.specs.declared.place.Edge.{Edge as edge_type};
ghost use Rattle.graph_core.specs.Edges.{port_number};
ghost use Rattle.property_resolver.specs.Joined.{HasEdges, AreOf, end_on, numbers_on};

use graph_core::{Edge, Graph, PortAt, PropAt, Side};

/// The numbers of the edges by the ports at their ends, for a graph of at most 32 blocks.
///
/// No block has more than two ports on a side, and no port more than one edge.
#[derive(Drop)]
pub(crate) struct Joins {
    outputs: [Option<u16>; 64],
    inputs: [Option<u16>; 64],
}

/// The port at the edge's end on the side.
fn end_on(side: Side, edge: &Edge) -> PortAt
    ensures { result ≡ end_on side edge.now }
{
    match side {
        Side::Out => edge.from,
        Side::Into => edge.to,
    }
}

/// A number of its own for each port of one side.
fn number_of(at: PortAt) -> usize
    ensures { result ≡ port_number at }
{
    2 * at.block as usize + at.port as usize
}

/// The numbers of the edges by the ports at their ends on the side.
fn numbers(side: Side, edges: &[Edge]) -> [Option<u16>; 64]
    requires few { length edges.now ≤ 64 }
    requires within { (number : ℕ) (edge : edge_type) → slice_get edges.now number ≡ Some edge →
        port_number (end_on side edge) < 64 }
    requires apart { (number other : ℕ) (edge next : edge_type) → slice_get edges.now number ≡
        Some edge → slice_get edges.now other ≡ Some next → port_number (end_on side edge) ≡
        port_number (end_on side next) → number ≡ other }
    ensures { HasEdges side edges.now (length edges.now) result }
{
    let mut numbers = [None; 64];
    for (number, edge) in edges.iter().enumerate() {
        numbers[number_of(end_on(side, edge))] = Some(number as u16);
    }
    numbers
}

impl Joins {
    pub(crate) fn of(graph: &Graph) -> Joins
        ensures { AreOf result graph.now.diagram.edges }
    {
        let edges = graph.edges().as_slice();
        Joins {
            outputs: numbers(Side::Out, edges),
            inputs: numbers(Side::Into, edges),
        }
    }

    /// The number of the edge at the property's port, if there is one.
    pub(crate) fn at(&self, at: PropAt) -> Option<u16>
        ensures { result ≡ slice_index_or (numbers_on self.now at.side) (2 * at.block + at.port)
            None }
    {
        let numbers = match at.side {
            Side::Out => &self.outputs,
            Side::Into => &self.inputs,
        };
        let number = 2 * at.block as usize + at.port as usize;
        if number < 64 { numbers[number] } else { None }
    }
}
