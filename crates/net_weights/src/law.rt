//! Each law is a function that does nothing and promises it.
ghost use Rattle.net_weights.specs.Journals.{JournalsEnd, LedWeightFalls, WeightFalls};

/// Each event lowers the weight of a state.
pub fn each_event_lowers_the_weight()
    ensures acts { WeightFalls }
    ensures led { LedWeightFalls }
{}

/// A journal has at most as many events as the state in which it begins weighs.
pub fn journals_end()
    ensures { JournalsEnd }
{}
