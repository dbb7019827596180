//! What holds of pcap files and of every list of calls.
//!
//! Each law is a function that does nothing and promises it.
ghost use Rattle.pcap_input.specs.Calls.{IsSameCut, KeepsShown};
ghost use Rattle.pcap_input.specs.Rest.{DrainsAll, PassesBytes, ShowsAll, ShowsCut, ShowsFault, ShowsFed, ShowsFiles, ShowsGiven};

/// A header and records end to end show what each record's frame is, and no fault.
pub fn a_file_is_its_records()
    ensures { ShowsFiles }
{}

/// A reader shows what its bytes and those that follow are, from what it has given on.
pub fn a_reader_shows_what_follows()
    ensures all { ShowsAll }
    ensures fed { ShowsFed }
    ensures given { ShowsGiven }
    ensures fault { ShowsFault }
    ensures cut { ShowsCut }
    ensures drains { DrainsAll }
    ensures passes { PassesBytes }
{}

/// The items given and the fault are the same in whatever pieces the bytes come.
pub fn any_cut_gives_the_same()
    ensures shown { KeepsShown }
    ensures same { IsSameCut }
{}
