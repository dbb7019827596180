//! What holds of captures and of every list of calls.
//!
//! Each law is a function that does nothing and promises it.
//!
//! Rule: docs/wire-format.md, "Captures".
ghost use Rattle.chdr_stream.specs.Rest.{PassesBytes, ShowsAll, ShowsCut, ShowsFault, ShowsFed, ShowsGiven};
ghost use Rattle.chdr_stream.specs.Laws.{EndsWhole, HasNone, HasOne, IsACall, IsAnyCut, IsSameCut, IsWholeOrFaulty, KeepsRest, NamesCut, NamesFault, PassTells, ShowsCaptures, ShowsFirstFault, ShowsLongest, ShowsOnly, ShowsPlaces, StaysAtFault};

/// Bytes show no fault exactly where they are a capture of the packets shown, and of these alone.
pub fn captures_show_no_fault()
    ensures exact { ShowsCaptures }
    ensures only { ShowsOnly }
{}

/// The fault shown stands behind the longest front that is a capture, with the reason found there.
pub fn the_fault_is_the_first()
    ensures exact { ShowsFirstFault }
    ensures longest { ShowsLongest }
    ensures either { IsWholeOrFaulty }
    ensures none { HasNone }
    ensures one { HasOne }
{}

/// Each packet shown stands behind those before it, and is canonical exactly where its bytes are.
pub fn packets_tell_their_places()
    ensures { ShowsPlaces }
{}

/// The lists of calls below are of what `next` and `pass` promise.
pub fn calls_do_what_clauses_say()
    ensures next { IsACall }
    ensures pass { PassTells }
{}

/// The bytes fed are the packets given and the bytes kept, in whatever pieces they came.
pub fn any_cut_gives_the_same()
    ensures rest { KeepsRest }
    ensures shown { IsAnyCut }
    ensures same { IsSameCut }
{}

/// A fault of a packet or at the end is the first fault of the bytes fed, and stays.
pub fn a_stream_stops_at_the_first_fault()
    ensures bad { NamesFault }
    ensures cut { NamesCut }
    ensures whole { EndsWhole }
    ensures stays { StaysAtFault }
{}

/// A decoder shows what its bytes and those that follow are, from what it has given on.
pub fn a_decoder_shows_what_follows()
    ensures all { ShowsAll }
    ensures fed { ShowsFed }
    ensures given { ShowsGiven }
    ensures fault { ShowsFault }
    ensures cut { ShowsCut }
    ensures passes { PassesBytes }
{}
