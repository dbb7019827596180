//! Each law is a function that does nothing and promises it.
ghost use Rattle.net_runs.specs.Lossless.{LosslessGoesOn, NothingNamedNothingLost, ResynchronisingRunsDrain};
ghost use Rattle.net_runs.specs.Runs.{BeginsWithoutLosses, LawfulWeightFalls, LegalJournalsEnd, OnlyLosesCount, WholeRunsEnd, WholeRunsEndPlain};

/// Each event lowers the weight of a lawful network, so a legal journal has at most as many events as its first state
/// weighs.
pub fn legal_journals_end()
    ensures falls { LawfulWeightFalls }
    ensures journals { LegalJournalsEnd }
{}

/// As a run begins no packet is lost, and only a Lose counts one as lost.
pub fn only_a_lose_loses_packets()
    ensures begun { BeginsWithoutLosses }
    ensures events { OnlyLosesCount }
{}

/// At the end of a whole run a stream that isn't drained is joined to one that lost a packet and doesn't
/// resynchronise.
pub fn whole_runs_end_for_a_cause()
    ensures { WholeRunsEnd }
{}

/// At the end of a whole run in which nothing was lost the plan tells what each stream carried, its tally but for the
/// peaks, and each line.
pub fn whole_runs_without_losses_end_plain()
    ensures { WholeRunsEndPlain }
{}

/// In a run whose plan names no packet to lose nothing is lost.
pub fn nothing_is_lost_that_is_not_named()
    ensures events { LosslessGoesOn }
    ensures runs { NothingNamedNothingLost }
{}

/// If each stream of a plan resynchronises by itself, a whole run leaves all of them drained, whatever was lost.
pub fn resynchronising_runs_drain()
    ensures { ResynchronisingRunsDrain }
{}
