//! The laws of nodes, for the crates above: each is the contract of a function that does nothing.
ghost use Rattle.net_nodes.specs.Laws.{TablesAreMaps, EntriesArePorts, BudgetStays, HopsFall, PerformedPacketsFit, CrossbarSitesFit, AdapterSitesFit, EndSitesFit};

use crate::{EndNode, Site, Switch, Table};

/// A table is a finite map: a new entry is found at its EPID, and every other entry stays.
pub fn tables_are_maps(table: &Table)
    ensures { TablesAreMaps table.now }
{
    let _ = table;
}

/// Entries stay ports of the node.
pub fn entries_are_ports(site: &Site, table: &Table)
    ensures { EntriesArePorts site.now table.now }
{
    let _ = site;
    let _ = table;
}

/// A performed packet has one hop less and fits, and its last hop never outgrows what was counted:
/// the operations of the last hop with the answers that all hops ask.
pub fn performed_packets_fit(site: &Site, table: &Table)
    ensures hops { HopsFall site.now table.now }
    ensures budget { BudgetStays site.now table.now }
    ensures fits { PerformedPacketsFit site.now table.now }
{
    let _ = site;
    let _ = table;
}

/// A node that fits is a site that fits, and so are its entries: `performed_packets_fit` speaks of
/// every node.
pub fn nodes_are_sites_that_fit(switch: &Switch, node: &EndNode)
    ensures crossbar { CrossbarSitesFit switch.now }
    ensures adapter { AdapterSitesFit switch.now }
    ensures end_node { EndSitesFit node.now }
{
    let _ = switch;
    let _ = node;
}
