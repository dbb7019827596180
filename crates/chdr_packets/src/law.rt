//! The laws of packets, for the crates above: each is the contract of a function that does nothing.
ghost use Rattle.chdr_packets.specs.Laws.{FaultStands, FittingSpelled, NoMemory, NoneExactly, OneAtFront, OneCanon, ReadMarked, ReadSpelled, ReadStands, ReadWithin, ReadsBack, RefusedExactly, SpelledFits};

/// The packet at the front of bytes and its size are unique: two spellings that the same bytes
/// begin with are of one packet, and equally long.
pub fn one_packet_is_in_front()
    ensures { OneAtFront }
{}

/// What is spelled, canonical or not, is read back with its size, whatever follows it.
pub fn spellings_are_read_back()
    ensures { ReadsBack }
{}

/// A packet that has a spelling fits.
pub fn spelled_packets_fit()
    ensures { SpelledFits }
{}

/// A packet that fits has a canonical spelling, whether or not `encode` finds memory for it.
pub fn fitting_packets_are_spelled()
    ensures { FittingSpelled }
{}

/// A packet has one canonical spelling at most: its reserved bits and pad bytes are zero, and the
/// packet tells all others.
pub fn canonical_spellings_are_unique()
    ensures { OneCanon }
{}

/// What is read at the front of bytes is spelled there, and marked canonical exactly if its bytes
/// are its canonical spelling.
pub fn what_is_read_is_spelled()
    ensures within { ReadWithin }
    ensures spelled { ReadSpelled }
    ensures marked { ReadMarked }
{}

/// What follows a packet or a fault changes neither.
pub fn what_follows_changes_nothing()
    ensures packet { ReadStands }
    ensures fault { FaultStands }
{}

/// Reading finds nothing exactly if bytes are missing, and a fault exactly if its test is the
/// first that fails.
pub fn reading_tells_the_first_failing_test()
    ensures none { NoneExactly }
    ensures refused { RefusedExactly }
    ensures memory { NoMemory }
{}
