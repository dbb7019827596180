//! Each law is a function that does nothing and promises it.
ghost use Rattle.net_ends.specs.Complete.{AllEndPlain, LinesArePlain};
ghost use Rattle.net_ends.specs.Made.{MadeIsBounded};
ghost use Rattle.net_ends.specs.Rest.{AllAreDrained, EndsHaveCauses, StillIsEmpty};

/// If each stream sends what its producer makes, none sends more packets than the plan allows it.
pub fn producers_make_few_packets()
    ensures { MadeIsBounded }
{}

/// Where no event is enabled all queues are empty.
pub fn still_networks_are_empty()
    ensures { StillIsEmpty }
{}

/// Where no event is enabled a stream that isn't drained was halted by a loss, or is joined to one that was; so where
/// nothing was lost all are drained.
pub fn each_end_has_its_cause()
    ensures causes { EndsHaveCauses }
    ensures drained { AllAreDrained }
{}

/// Where nothing was lost the plan alone tells what each stream carried, its tally but for the peaks, and each line.
pub fn a_run_without_losses_ends_plain()
    ensures streams { AllEndPlain }
    ensures lines { LinesArePlain }
{}
