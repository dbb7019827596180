//! Each law is a function that does nothing and promises it.
ghost use Rattle.net_rest.specs.Laws.{BegunHasNoMessages, NoMessagesCome, NoMessagesComeInJournals, RestHasNoMessages, RunsRest};

/// A network at rest has no messages: no request or answer is under way or can enter. So it is as a run begins there.
pub fn networks_at_rest_have_no_messages()
    ensures rest { RestHasNoMessages }
    ensures begun { BegunHasNoMessages }
{}

/// Without messages no event brings any, and none changes a node: tables stay, and so do the answers that came.
pub fn no_messages_come()
    ensures events { NoMessagesCome }
    ensures journals { NoMessagesComeInJournals }
{}

/// A whole run of a plan that begins at rest leaves the network at rest, so another run can begin there.
pub fn runs_leave_networks_at_rest()
    ensures { RunsRest }
{}
