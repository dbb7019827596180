ghost use Rattle.graph_core.specs.Derivation.{ClosedIsUnique};
ghost use Rattle.graph_core.specs.Settled.{EdgesAgree, EdgesShowTheSame, BlocksAgree, ItemsAreSet, SettlingIsUnique, ChainsAreShort};

/// There is at most one closed derivation, up to the order of its pairs; so values that settle a
/// graph are the same, and the value of each property is.
pub fn settled_values_are_unique()
    ensures closed { ClosedIsUnique }
    ensures settled { SettlingIsUnique }
{}

/// In a settled graph both ends of an edge have the same values, and all ports of a block have the
/// same item and spp.
pub fn settled_values_agree()
    ensures edges { EdgesAgree }
    ensures found { EdgesShowTheSame }
    ensures blocks { BlocksAgree }
{}

/// Each item and each spp of a settled graph is one that the user set.
pub fn items_come_from_the_user()
    ensures { ItemsAreSet }
{}

/// No chain of edges is longer than the blocks are many.
pub fn chains_of_edges_are_short()
    ensures { ChainsAreShort }
{}
