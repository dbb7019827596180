//! Each law is a function that does nothing and promises it.
ghost use Rattle.net_lone.specs.Carrying.{AnswersComeBack, ComesOn, MessagesAreCarried, RequestsEnter};
ghost use Rattle.net_lone.specs.Control.{ControlComesBack};
ghost use Rattle.net_lone.specs.Laws.{AnsweredIsSettled, FirstIsOfTheMessage, MessageIsFirst, NoRequestWaits, OneEnd, OneHappens, OneIsEnabled};
ghost use Rattle.net_lone.specs.Talks.{ControlTalks};

/// Where one message is under way and nothing else can happen, exactly its next event is enabled, and what that event
/// does is what the message does.
pub fn one_message_goes_alone()
    ensures enabled { OneIsEnabled }
    ensures happens { OneHappens }
    ensures first { FirstIsOfTheMessage }
    ensures journal { MessageIsFirst }
{}

/// A message has one journal to its end. Once its answer is taken out the network is settled, and no request waits at a
/// host with a link.
pub fn one_message_has_one_end()
    ensures once { OneEnd }
    ensures settled { AnsweredIsSettled }
    ensures none { NoRequestWaits }
{}

/// Where tables lead from a host to an end node and back, a control request is operated there and its acknowledgement
/// comes to the host, but for what is named to be lost.
pub fn control_requests_come_back()
    ensures message { ControlComesBack }
    ensures talk { ControlTalks }
{}

/// A message goes on step by step: a request enters, tables carry it to an end node, and an answer comes back.
pub fn messages_are_carried()
    ensures on { ComesOn }
    ensures enters { RequestsEnter }
    ensures carried { MessagesAreCarried }
    ensures back { AnswersComeBack }
{}
