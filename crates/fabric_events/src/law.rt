//! The laws of a net, for the crates above: each is the contract of a function that does nothing.
ghost use Rattle.fabric_events.specs.Begun.{BegunIsNow, BuiltIsNow};

/// A net as it is built is the present of the machine's state, and so it is where a run begins in it.
pub fn nets_begin_as_the_machine()
    ensures built { BuiltIsNow }
    ensures begun { BegunIsNow }
{}
