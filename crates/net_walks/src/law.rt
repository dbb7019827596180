//! Each law is a function that does nothing and promises it.
ghost use Rattle.net_walks.specs.Entries.{EntriesAreEntered};
ghost use Rattle.net_walks.specs.Links.{BacksAreThere, BacksEnd, BacksStart, PortsLeadBack};
ghost use Rattle.net_walks.specs.Nodes.{HostsHaveEpids, HostsHaveNoTable, HostsHaveSome, PortsAreFew, SitesTellArrivals};
ghost use Rattle.net_walks.specs.Probes.{BarePortsSendBack, ProbesComeBack, WaysAreWalks};
ghost use Rattle.net_walks.specs.Returns.{WalkersArrive, WalkersComeBack};
ghost use Rattle.net_walks.specs.Talks.{WalkersTalk};
ghost use Rattle.net_walks.specs.Ways.{HopsLeaveByPorts, LinksOverAreFew, WaysAreShort, WaysGoOver};

/// The same link the other way starts where a link ends, ends where it starts, and leaves by the port to which it comes.
pub fn links_lead_back()
    ensures starts { BacksStart }
    ensures ends { BacksEnd }
    ensures there { BacksAreThere }
    ensures port { PortsLeadBack }
{}

/// A plan tells each host's EPID, how many ports a node has, and the port of arrival at the end of each link.
pub fn plans_tell_nodes()
    ensures epids { HostsHaveEpids }
    ensures some { HostsHaveSome }
    ensures tables { HostsHaveNoTable }
    ensures ports { PortsAreFew }
    ensures arrivals { SitesTellArrivals }
{}

/// A new entry of one node's table changes nothing else.
pub fn entries_are_entered()
    ensures { EntriesAreEntered }
{}

/// A walker goes hop by hop to the end of its way, and comes back from a node that sends it back and has an entry for its
/// host. Each node on the way then leads to the host.
pub fn walkers_come_back()
    ensures arrive { WalkersArrive }
    ensures back { WalkersComeBack }
    ensures talk { WalkersTalk }
{}

/// A probe comes back from the end of its way with the node's information, or, where the last port has no link, with one
/// hop more.
pub fn probes_come_back()
    ensures probes { ProbesComeBack }
    ensures bare { BarePortsSendBack }
{}

/// Behind a link of a way lies the next one. So the way from a host to any node is one that walkers go, and it has no more
/// links than their packets may have hops.
pub fn ways_are_walks()
    ensures over { WaysGoOver }
    ensures walks { WaysAreWalks }
    ensures short { WaysAreShort }
    ensures few { LinksOverAreFew }
    ensures hops { HopsLeaveByPorts }
{}
