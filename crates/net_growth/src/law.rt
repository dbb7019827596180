//! Each law is a function that does nothing and promises it.
ghost use Rattle.net_growth.specs.Growing.{GivenGrows};
ghost use Rattle.net_growth.specs.Sending.{OnlyEntersSend};
ghost use Rattle.net_growth.specs.Taking.{SeenTakes};

/// An event that takes nothing of a stream to an Rx may add packets to what was given on it. What waits for the
/// consumer grows by the same packets, and as many are taken as before.
pub fn what_is_given_only_grows()
    ensures { GivenGrows }
{}

/// A taking leaves as many packets of its stream taken as it names, and changes nothing of what was given or waits on any
/// stream, nor of how many packets of other streams are taken.
pub fn a_taking_only_takes()
    ensures { SeenTakes }
{}

/// What is ready on a stream that a Tx fills, and how much of it was offered, changes with an Enter of the stream
/// alone: what is fed to a block becomes ready on other streams, since a Tx has no input.
pub fn only_an_enter_uses_up_what_a_tx_made()
    ensures { OnlyEntersSend }
{}
