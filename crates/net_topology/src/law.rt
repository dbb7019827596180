//! The laws of a tree, for the crates above: each is the contract of a function that does nothing.
ghost use Rattle.net_topology.specs.Laws.{WaysAreThere, WaysAreUnique, WaysGoOn, WaysNeverTurn, WaysFollow, WalksAreWays, WaysLeadBack, RanksFall, RanksAreBounded, SomeLinkIsClear, LinksAreFew, LinksJoinPorts, PortsNameLinks, LinksLeaveByPorts, OtherPortsLeadOn, BitsTellLinks, EpidsNameNodes, RoutedTablesLead, WrittenWaysLead, LeadsAlongWays, LeadsAreWays, NoneReachesItself, TreesHaveNoFault, FaultsAreUnique};
ghost use Rattle.net_topology.specs.Tree.{IsTree};

use crate::Plan;

/// There is one way between any two nodes of a tree, and no other.
pub fn ways_are_unique(plan: &Plan)
    requires { IsTree plan.now }
    ensures there { WaysAreThere plan.now }
    ensures only { WaysAreUnique plan.now }
{
    let _ = plan;
}

/// Behind the first link of a way lies the way from that link's end, and a way never turns back.
pub fn ways_go_on(plan: &Plan)
    ensures next { WaysGoOn plan.now }
    ensures turns { WaysNeverTurn plan.now }
    ensures follows { WaysFollow plan.now }
{
    let _ = plan;
}

/// A walk over a tree that never turns back is a way.
pub fn walks_are_ways(plan: &Plan)
    requires { IsTree plan.now }
    ensures { WalksAreWays plan.now }
{
    let _ = plan;
}

/// The way back is the way reversed.
pub fn ways_lead_back(plan: &Plan)
    requires { IsTree plan.now }
    ensures { WaysLeadBack plan.now }
{
    let _ = plan;
}

/// The rank of directed links falls when a packet goes on. So of the links that hold packets, one
/// leads to no link that holds any: its first packet can always move.
pub fn some_link_is_clear(plan: &Plan)
    requires { IsTree plan.now }
    ensures falls { RanksFall plan.now }
    ensures bounded { RanksAreBounded plan.now }
    ensures clear { SomeLinkIsClear plan.now }
{
    let _ = plan;
}

/// A tree has at most as many links as nodes, and each joins a port of a node to a port of a node.
pub fn links_join_ports(plan: &Plan)
    requires { IsTree plan.now }
    ensures few { LinksAreFew plan.now }
    ensures ends { LinksJoinPorts plan.now }
{
    let _ = plan;
}

/// A port names the one directed link that leaves by it, and a packet that leaves by another port
/// than it came by goes on.
pub fn ports_name_links(plan: &Plan)
    requires { IsTree plan.now }
    ensures named { PortsNameLinks plan.now }
    ensures back { LinksLeaveByPorts plan.now }
    ensures onward { OtherPortsLeadOn plan.now }
{
    let _ = plan;
}

/// Bit p of a node's link bits is set exactly if port p has a link.
pub fn bits_tell_links(plan: &Plan)
    ensures { BitsTellLinks plan.now }
{
    let _ = plan;
}

/// A node has an EPID exactly if it is the node that is found for the EPID.
pub fn epids_name_nodes(plan: &Plan)
    requires { IsTree plan.now }
    ensures { EpidsNameNodes plan.now }
{
    let _ = plan;
}

/// A plan has at most one refusal besides running out of memory, and a tree has none. So a check
/// that returns either is exact.
pub fn refusals_exclude_each_other(plan: &Plan)
    ensures tree { TreesHaveNoFault plan.now }
    ensures one { FaultsAreUnique plan.now }
{
    let _ = plan;
}

/// Tables with the next links of one way lead over it. So tables with the next link of each way,
/// at each crossbar and adapter, lead from every EPID to every EPID of another node.
pub fn routed_tables_lead(plan: &Plan)
    requires { IsTree plan.now }
    ensures one { WrittenWaysLead plan.now }
    ensures all { RoutedTablesLead plan.now }
{
    let _ = plan;
}

/// Where tables lead, they lead along the way. So no EPID is reached from itself.
pub fn tables_lead_along_ways(plan: &Plan)
    requires { IsTree plan.now }
    ensures over { LeadsAlongWays plan.now }
    ensures ways { LeadsAreWays plan.now }
    ensures itself { NoneReachesItself plan.now }
{
    let _ = plan;
}
