//! Each law is a function that does nothing and promises it.
ghost use Rattle.net_ways.specs.Beginning.{BegunHasQueues, BegunHasWays, BuiltHasQueues, EmptyIsPlaced, QueuesStay};
ghost use Rattle.net_ways.specs.Clear.{ChannelsGoOn, OutcomesFollow};
ghost use Rattle.net_ways.specs.Entering.{EntersAhead, EntersBack, LosesAhead, LosesBack};
ghost use Rattle.net_ways.specs.Gather.{Comes, IsBlind, Joins, Loses, Moves};
ghost use Rattle.net_ways.specs.Hops.{CommandsCome, HopsAhead, HopsBack, HopsByTable, SamplesCome, StatusesCome};
ghost use Rattle.net_ways.specs.Standing.{BuiltHoldsMessages, MessagesStay, PlacesStay};
ghost use Rattle.net_ways.specs.Unseen.{HopsUnseen, JoinsUnseen, LeavesUnseen, LossesUnseen, NodesUnseen, StreamsUnseen, UnseenTwice};
ghost use Rattle.net_ways.specs.Ways.{WaysAreOverQueues, WaysBegin};

/// What is picked along queues follows them as entries join, move on, come and are lost.
pub fn what_is_picked_follows_the_queues<A, X>()
    ensures blind { IsBlind A X }
    ensures joins { Joins A X }
    ensures moves { Moves A X }
    ensures comes { Comes A X }
    ensures loses { Loses A X }
{}

/// Where tables lead, the way goes over queues that are there, each once, from the first link on.
pub fn tables_lead_over_queues()
    ensures queues { WaysAreOverQueues }
    ensures first { WaysBegin }
{}

/// Where a queue has an entry, some entry of its channel moves on or is lost.
pub fn channels_go_on()
    ensures { ChannelsGoOn }
{}

/// A packet that goes on from a node never goes back by its port of arrival.
pub fn packets_never_turn_back()
    ensures { OutcomesFollow }
{}

/// An entry that hops on stays on its way.
pub fn hops_stay_on_ways()
    ensures table { HopsByTable }
    ensures ahead { HopsAhead }
    ensures back { HopsBack }
{}

/// An entry that hops from the last queue of its way comes to its stream.
pub fn hops_come_to_streams()
    ensures samples { SamplesCome }
    ensures commands { CommandsCome }
    ensures statuses { StatusesCome }
{}

/// An entry that enters by the first link of its way is under way, and one that is lost on it isn't.
pub fn entries_join_and_leave_ways()
    ensures enters_ahead { EntersAhead }
    ensures enters_back { EntersBack }
    ensures loses_ahead { LosesAhead }
    ensures loses_back { LosesBack }
{}

/// A stream doesn't see what happens to other streams, to nodes, and to entries that aren't its own.
pub fn others_are_unseen()
    ensures twice { UnseenTwice }
    ensures streams { StreamsUnseen }
    ensures nodes { NodesUnseen }
    ensures joins { JoinsUnseen }
    ensures leaves { LeavesUnseen }
    ensures hops { HopsUnseen }
    ensures losses { LossesUnseen }
{}

/// Each entry stands in a queue of its channel, and those of a stream stand on its way.
pub fn entries_stand_on_ways()
    ensures { PlacesStay }
{}

/// What waits at nodes are requests and answers, on their channels.
pub fn nodes_hold_messages()
    ensures built { BuiltHoldsMessages }
    ensures stay { MessagesStay }
{}

/// A network is built with its queues, and a run begins with the ways of its streams.
pub fn runs_begin_with_ways()
    ensures built { BuiltHasQueues }
    ensures begun { BegunHasQueues }
    ensures queues { QueuesStay }
    ensures ways { BegunHasWays }
    ensures placed { EmptyIsPlaced }
{}
