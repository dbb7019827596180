//! Each law is a function that does nothing and promises it.
ghost use Rattle.net_writes.specs.Routes.{MayBeWritten, RoutesAreWritten, WholeRoutesLead};
ghost use Rattle.net_writes.specs.Talks.{WriteTalks};
ghost use Rattle.net_writes.specs.Writing.{WritesComeBack};

/// A packet that writes a node's entries for the two ends of a route goes hop by hop to the node, writes them there, and
/// comes back, unless it or what comes back is lost. Each node on the way then leads to the host that asked.
pub fn writes_come_back()
    ensures message { WritesComeBack }
    ensures talk { WriteTalks }
{}

/// Writes at one node of a way after another leave there the entries for both its ends, and no entry of another EPID but
/// the host's changes. Those at each crossbar and adapter of the way lead from one end to the other, both ways.
pub fn routes_are_written()
    ensures may { MayBeWritten }
    ensures written { RoutesAreWritten }
    ensures leads { WholeRoutesLead }
{}
