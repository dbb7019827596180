//! The laws of the parts, for the crates above: each is the contract of a function that does nothing.
ghost use Rattle.fabric_nodes.specs.Shapes.{ShapesTell};

/// What a node is, as its part has it, tells its site, and where packets that begin at it go.
pub fn shapes_tell_sites()
    ensures { ShapesTell }
{}
