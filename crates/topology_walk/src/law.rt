//! Each law is a function that does nothing and promises it.
ghost use Rattle.topology_walk.specs.Whole.{WholeTreeIsFound};

/// Where no port is lost, a walk finds each node of the tree once, and nothing else.
pub fn whole_trees_are_found()
    ensures { WholeTreeIsFound }
{}
