//! Each law is a function that does nothing and promises it.
ghost use Rattle.net_flows.specs.Beginning.{BegunIsSteady, MovesKeepSteady, SteadyIsReady};
ghost use Rattle.net_flows.specs.Closing.{ClosedStays, DrainedStays, EventsKeepEnds, FurtherIsFinished};
ghost use Rattle.net_flows.specs.Flows.{SteadyStays, UnseenFlows};
ghost use Rattle.net_flows.specs.Going.{EventsGoOn, UnseenGoesOn};

/// A producer that is finished stays finished, and a drained stream stays drained, as long as what a Tx used up stays
/// used up and no drained stream has more to do. Each event keeps that.
pub fn what_is_finished_stays_finished()
    ensures further { FurtherIsFinished }
    ensures closed { ClosedStays }
    ensures drained { DrainedStays }
    ensures events { EventsKeepEnds }
{}

/// What lasts of a network and its streams stays, whatever event happens: each stream goes on as a run of the machine
/// of one stream.
pub fn each_stream_stays_a_run()
    ensures events { SteadyStays }
    ensures moves { MovesKeepSteady }
    ensures unseen { UnseenFlows }
{}

/// At each event each stream goes on by acts of the machine of one stream.
pub fn each_stream_goes_on_by_acts()
    ensures events { EventsGoOn }
    ensures unseen { UnseenGoesOn }
{}

/// A run begins with all that lasts: each of its streams is a run, in which its Tx made what it has.
pub fn each_stream_begins_as_a_run()
    ensures { BegunIsSteady }
{}

/// What waits to enter may stand in its first queue.
pub fn what_waits_may_enter()
    ensures { SteadyIsReady }
{}
