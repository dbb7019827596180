ghost use Rattle.std.specs.Prelude.{◌≡◌, ℕ, ◌<◌, ◌↔◌, true, false, IsTrue, All, length};
ghost use Rattle.graph_core.specs.Edges.{Reaches, IsTaken};
ghost use Rattle.graph_core.specs.Reach.{HasEndsBelow, KeepsReached, Marked, MarksClosed, unmarked};

use crate::{Edge, PortAt};

/// Whether the output or the input has an edge.
pub(crate) fn is_taken(edges: &[Edge], from: PortAt, to: PortAt) -> bool
    ensures { IsTrue result ↔ IsTaken edges.now from to }
{
    for edge in edges {
        if edge.from == from || edge.to == to {
            return true;
        }
    }
    false
}

/// Marks the far block of each edge from a marked block, and tells whether there was a new one.
fn sweep(edges: &[Edge], marks: &mut [bool]) -> bool
    requires ends { All (HasEndsBelow (length marks.old)) edges.now }
    ensures kept { (b : ℕ) → Marked marks.old b → Marked marks.new b }
    ensures sound { KeepsReached edges.now marks.old marks.new }
    ensures still { result ≡ false → MarksClosed edges.now marks.new }
    ensures moved { result ≡ true → unmarked marks.new < unmarked marks.old }
{
    let mut moved = false;
    for edge in edges {
        if marks[edge.from.block as usize] && !marks[edge.to.block as usize] {
            marks[edge.to.block as usize] = true;
            moved = true;
        }
    }
    moved
}

/// Whether the block `last` is `first`, or edges lead to it from there.
pub(crate) fn reaches(edges: &[Edge], first: u16, last: u16) -> bool
    requires ends { All (HasEndsBelow 32) edges.now }
    requires first { first < 32 }
    requires last { last < 32 }
    ensures { IsTrue result ↔ Reaches edges.now first last }
{
    let mut marks = [false; 32];
    marks[first as usize] = true;
    while sweep(edges, &mut marks) {}
    marks[last as usize]
}
