//! Each law is a function that does nothing and promises it.
ghost use Rattle.net_lawful.specs.Laws.{AllAreLawful, BegunIsLawful, BlocksGive, BlocksTake, BuiltIsLawful, LawfulStays, NoRxAtEndpoints, NodesCanPerform, PeaksFollow, PlansFit};
ghost use Rattle.net_lawful.specs.Walking.{EventsAskNothing, StilledIsUnseen};

/// A network over a tree is lawful as it is built, and as a run begins at rest.
pub fn networks_begin_lawful()
    ensures built { BuiltIsLawful }
    ensures begun { BegunIsLawful }
{}

/// Each move that is allowed leaves a network lawful, and so do all moves of a legal list.
pub fn moves_leave_networks_lawful()
    ensures each { LawfulStays }
    ensures all { AllAreLawful }
{}

/// No event asks a management packet, and once one was asked no stream sees what happens.
pub fn streams_stand_still_once_asked()
    ensures asks { EventsAskNothing }
    ensures unseen { StilledIsUnseen }
{}

/// In a plan that can run each stream joins two blocks, at an output and an input of its own, and no Rx
/// stands at an endpoint.
pub fn streams_join_blocks()
    ensures plans { PlansFit }
    ensures takes { BlocksTake }
    ensures gives { BlocksGive }
    ensures hosts { NoRxAtEndpoints }
{}

/// Where a queue has an entry, the node at its end is a site that fits, and so are its table's entries.
pub fn nodes_can_perform()
    ensures { NodesCanPerform }
{}

/// The peak of a stream stays at an event, or follows what is outstanding then.
pub fn peaks_follow()
    ensures { PeaksFollow }
{}
