//! Each law is a function that does nothing and promises it.
ghost use Rattle.host_talk.specs.Settled.{BuiltNetsAreSettled, RestSettles, SettledNets, SettledStates};

/// A net is settled exactly if the states for which it stands are.
pub fn nets_are_settled_as_their_states()
    ensures states { SettledStates }
    ensures nets { SettledNets }
{}

/// A net is settled as it is built, and at rest again with its nodes as they were.
pub fn nets_at_rest_are_settled()
    ensures built { BuiltNetsAreSettled }
    ensures rest { RestSettles }
{}
