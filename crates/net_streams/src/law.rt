ghost use Rattle.net_streams.specs.Acting.{CommandsAct, CommandsLost, EnterActs, ReportActs, SamplesAct, SamplesLost, SeenActs, StatusesAct, StatusesLost, UnseenShows};
ghost use Rattle.net_streams.specs.Making.{CommandActs, MakingActs, TakingActs};

/// What a stream doesn't see changes nothing of what the network shows of it.
pub fn what_is_unseen_changes_nothing()
    ensures { UnseenShows }
{}

/// A packet, a command and a status that enter are acts of their stream.
pub fn what_is_sent_is_an_act()
    ensures enters { EnterActs }
    ensures commands { CommandActs }
    ensures reports { ReportActs }
{}

/// A packet, a command and a status that come to the end of their way are acts of their stream.
pub fn what_comes_is_an_act()
    ensures samples { SamplesAct }
    ensures commands { CommandsAct }
    ensures statuses { StatusesAct }
{}

/// A taking, at an Rx or by a feed, is an act of its stream.
pub fn what_is_taken_is_an_act()
    ensures seen { SeenActs }
    ensures fed { TakingActs }
{}

/// What a block makes for a stream is an act of that stream.
pub fn what_is_made_is_an_act()
    ensures { MakingActs }
{}

/// A packet, a command and a status that are lost on their way are losses of their stream.
pub fn what_is_lost_is_an_act()
    ensures samples { SamplesLost }
    ensures commands { CommandsLost }
    ensures statuses { StatusesLost }
{}
