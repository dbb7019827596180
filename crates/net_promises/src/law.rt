//! Each law is a function that does nothing and promises it.
ghost use Rattle.net_promises.specs.Arriving.{ArrivalsFindRoom, FeedsFit, RequestsFit};
ghost use Rattle.net_promises.specs.Held.{StreamsAreWithin};
ghost use Rattle.net_promises.specs.Peaks.{TalliesAreKept};
ghost use Rattle.net_promises.specs.Laws.{LawfulFitsPresent, LawfulKeepsPromises, RunsKeepPromises};

/// Each stream keeps the report's promise, in each state of a legal run.
pub fn runs_keep_their_promises()
    ensures lawful { LawfulKeepsPromises }
    ensures runs { RunsKeepPromises }
{}

/// What is outstanding and what is buffered is within the capacity, and buffered is what was given and
/// isn't taken.
pub fn streams_stay_within_capacity()
    ensures { StreamsAreWithin }
{}

/// What comes to an end node can be taken in: samples that are kept find room, requests have a spelling,
/// and a block takes what is fed to it.
pub fn what_comes_can_be_taken_in()
    ensures samples { ArrivalsFindRoom }
    ensures requests { RequestsFit }
    ensures feeds { FeedsFit }
{}

/// A present can stand for each state.
pub fn states_fit_their_present()
    ensures { LawfulFitsPresent }
{}

/// The peaks that a state keeps are the greatest of all states of its run, so what a stream did by that state
/// is what it did in the run.
pub fn states_keep_their_tallies()
    ensures { TalliesAreKept }
{}
