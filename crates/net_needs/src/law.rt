//! Each law is a function that does nothing and promises it.
ghost use Rattle.net_needs.specs.EnteringLaws.{AskIsReady, CommandIsReady, EnterIsReady, ReplyIsReady, ReportIsReady, SeenIsReady};
ghost use Rattle.net_needs.specs.FeedingLaws.{FeedIsReady};
ghost use Rattle.net_needs.specs.HoppingLaws.{HopIsReady, LoseIsReady};
ghost use Rattle.net_needs.specs.Needs.{LawfulGivesNeeds};
ghost use Rattle.net_needs.specs.Sending.{OnlyEntersSend};
ghost use Rattle.net_needs.specs.Staying.{CountsRise, SizesStay};

/// Where a sample, a command, a status, a request or an answer may enter, its stream or node is there,
/// and so is its first queue, with room. So is the stream of which an Rx takes packets.
pub fn what_enters_has_a_place()
    ensures enter { EnterIsReady }
    ensures command { CommandIsReady }
    ensures report { ReportIsReady }
    ensures seen { SeenIsReady }
    ensures ask { AskIsReady }
    ensures reply { ReplyIsReady }
{}

/// Where an entry may hop, its queue and its link are there, and what the node at the end of the link does with
/// it can be done: it has room where it goes on, a stream to which it comes is there and has room for samples that it
/// keeps, and a request or a management packet fits. An entry that may be lost is there.
pub fn what_hops_or_is_lost_is_there()
    ensures hop { HopIsReady }
    ensures lose { LoseIsReady }
{}

/// Where a packet may be fed to a block, the block and the stream of the packet are there, the block takes the packet,
/// and what it gives can become ready on the streams that begin at it.
pub fn what_is_fed_is_taken()
    ensures { FeedIsReady }
{}

/// So what each event asks of the parts is there, wherever a present of a lawful state tells that it is enabled.
pub fn what_is_enabled_can_be_done()
    ensures { LawfulGivesNeeds }
{}

/// Each event keeps the tree, the plan, how many queues, nodes, streams and blocks there are, and the form of each
/// block, and raises each count by one at most.
pub fn sizes_stay_and_counts_rise_slowly()
    ensures sizes { SizesStay }
    ensures counts { CountsRise }
{}

/// In the present of a lawful state, what is ready on a stream whose producer is a Tx, and how much of it was offered,
/// changes with an Enter of the stream alone.
pub fn what_a_tx_made_stays_until_an_enter()
    ensures { OnlyEntersSend }
{}
