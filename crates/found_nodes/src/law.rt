//! Each law is a function that does nothing and promises it.
ghost use Rattle.found_nodes.specs.Growing.{NodesAreListed, ParentsStayFirst, PlacesStay};

/// A list of nodes grows at its end: each node keeps its place, and each parent still comes before its nodes.
pub fn lists_of_nodes_grow()
    ensures listed { NodesAreListed }
    ensures places { PlacesStay }
    ensures parents { ParentsStayFirst }
{}
