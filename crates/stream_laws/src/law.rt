//! The laws of one stream: what holds in each state that a legal run leaves, whatever its packets are.
ghost use Rattle.std.specs.Prelude.{◌-◌, ◌^◌};
ghost use Rattle.stream_laws.specs.Bounds.{IsHeld, IsKnown, OnlyEntersRaise, TakesOfBuffered};
ghost use Rattle.stream_laws.specs.Ends.{EndsWell, GivesAll, IsQuietAtRest, StaysDrained};
ghost use Rattle.stream_laws.specs.Example.{IsHaltedRun, IsWorked};
ghost use Rattle.stream_laws.specs.Laws.{Always, GoesOn, HasFewEpochs, HasRoomAhead, IsBrokenByLoss, IsCut, IsEpochwise, IsTakenOfGiven, IsWithin, Joins, NumbersGoOn, NumbersTell, ReadsBack, ReportsGap, StopsAtLoss, TellsTotals};
ghost use Rattle.stream_laws.specs.Potential.{IsLow, Lowers, StaysLow};
ghost use Rattle.stream_laws.specs.Runs.{OrderIsTested, QuietIsTested, SendsWhatWasMade, StuckIsTested};
ghost use Rattle.stream_laws.specs.Talk.{Holds};

/// The invariant, from which the other laws follow; docs/streams.md goes through it.
pub fn the_invariant_holds<P>()
    ensures law { Always {A = P} Holds }
{}

/// In each epoch the packets that were given are the first ones of those sent, in order.
pub fn given_begins_sent<P>()
    ensures law { Always {A = P} IsEpochwise }
    ensures cuts { Always {A = P} IsCut }
{}

/// The packets that were taken are the first ones of those given, and each taking takes of what is
/// buffered.
pub fn taken_begins_given<P>()
    ensures law { Always {A = P} IsTakenOfGiven }
    ensures buffered { Always {A = P} TakesOfBuffered }
{}

/// What is outstanding never passes the capacity, in packets and in bytes; with what is known it makes
/// up what was sent; and only sending a packet raises it.
pub fn credit_is_never_passed<P>()
    ensures law { Always {A = P} IsWithin }
    ensures known { Always {A = P} IsKnown }
    ensures raised { Always {A = P} OnlyEntersRaise }
{}

/// A packet that arrives and is kept finds room at the receiver, and what is buffered is within the
/// capacity.
pub fn what_is_kept_finds_room<P>()
    ensures law { Always {A = P} HasRoomAhead }
    ensures held { Always {A = P} IsHeld }
{}

/// A receiver is broken only in an epoch with a gap. Its status is then a SEQERR that tells the gap's
/// two numbers and what was transferred.
pub fn only_a_loss_breaks<P>()
    ensures law { Always {A = P} IsBrokenByLoss }
    ensures reported { Always {A = P} ReportsGap }
{}

/// Nothing from a lost packet of an epoch on is given in that epoch.
pub fn nothing_is_given_after_a_gap<P>()
    ensures law { Always {A = P} StopsAtLoss }
{}

/// There is at most one epoch more than there were losses.
pub fn epochs_are_few<P>()
    ensures law { Always {A = P} HasFewEpochs }
{}

/// What is spelled modulo a power of 2 tells the whole number: in a status that arrives, in a
/// RESYNC that arrives, and in a packet's number.
pub fn spellings_tell<P>()
    ensures counts { Always {A = P} ReadsBack }
    ensures totals { Always {A = P} TellsTotals }
    ensures numbers { Always {A = P} NumbersTell }
    ensures next { Always {A = P} NumbersGoOn }
{}

/// Legal runs go on by allowed acts, and one after another.
pub fn runs_join<P>()
    ensures act { GoesOn P }
    ensures run { Joins P }
{}

/// What was sent, followed by what is ready, is what the producer has made, in order.
pub fn what_was_made_is_sent_in_order<P>()
    ensures law { SendsWhatWasMade P }
{}

/// Each test of a stream is true exactly when its condition holds.
pub fn tests_tell_their_conditions<P>()
    ensures quiet { QuietIsTested P }
    ensures stuck { StuckIsTested P }
    ensures order { OrderIsTested P }
{}

/// A worked run of six packets that begins near 2^40, where a spelled packet count wraps in it: a loss
/// in the middle breaks the receiver, the first RESYNC and the answer of the second are lost, a PING
/// finds that the last packet was lost too, and the stream drains.
pub fn a_loss_is_mended()
    ensures law { IsWorked (2 ^ 40 - 2) }
{}

/// A run under the policy `off` of which a loss halts the sender.
pub fn a_loss_can_halt()
    ensures law { IsHaltedRun }
{}

/// A drained stream that lost no packet has given all that was sent, and all of it was taken.
pub fn drained_gives_all<P>()
    ensures law { Always {A = P} GivesAll }
{}

/// Whatever happens to a drained stream, it stays drained.
pub fn drained_stays<P>()
    ensures law { Always {A = P} StaysDrained }
{}

/// A stream of whose own acts none is allowed is quiet.
pub fn rest_is_quiet<P>()
    ensures law { Always {A = P} IsQuietAtRest }
{}

/// A quiet stream whose sender can do nothing is drained, or was halted by a loss under the policy
/// that allows it, or waits for its producer.
pub fn rest_is_an_end<P>()
    ensures law { Always {A = P} EndsWell }
{}

/// Each command lowers the potential, which is at most 11, and no act but sending and losing raises
/// it or the phase. So between two of these there are at most 11 commands.
pub fn commands_end<P>()
    ensures low { Always {A = P} IsLow }
    ensures plain { Always {A = P} StaysLow }
    ensures command { Always {A = P} Lowers }
{}
