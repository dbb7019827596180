//! What each node holds and does, by its number.
ghost use Rattle.std.specs.Prelude.{◌≡◌, ◌+◌, ◌<◌, ◌≤◌, ◌++◌, [], ◌∷◌, List, length, drop, option_copied, slice_get, OnOk, OnErr, Some};
ghost use Rattle.chdr_packets.specs.declared.packet.Packet.{Packet as PacketValue};
ghost use Rattle.net_machine.specs.State.{Node, node_in};
ghost use Rattle.net_nodes.specs.Operations.{asked_in};
ghost use Rattle.net_nodes.specs.Perform.{first_hop, last_hop, performed, without_first, work_of};
ghost use Rattle.net_nodes.specs.Table.{with_exit};
ghost use Rattle.fabric_nodes.specs.Shapes.{HasPort, leaves_of, site_of};
ghost use Rattle.fabric_lists.specs.SitesView.{has_work, on_site, shape_seen, sites_of, spare_seen};

use chdr_packets::Packet;
use chdr_words::{Epid, Management};
use fabric_nodes::Site;
use net_nodes::{Done, Room};
use rf_base::Memory;

/// The first request that is to leave a node; none where there is no such node.
pub fn first_request(sites: &[Site], x: usize) -> Option<&Packet>
    ensures { option_copied result ≡ slice_get (node_in (sites_of sites.now).nodes x).requests 0 }
{
    if x < sites.len() {
        sites[x].requests.first()
    } else {
        None
    }
}

/// The first answer that is to leave a node; none where there is no such node.
pub fn first_pending(sites: &[Site], x: usize) -> Option<&Packet>
    ensures { option_copied result ≡ slice_get (node_in (sites_of sites.now).nodes x).pending 0 }
{
    if x < sites.len() {
        sites[x].pending.first()
    } else {
        None
    }
}

/// Whether a request or an answer is to leave a node.
pub fn has_work(sites: &[Site], x: usize) -> bool
    ensures { result ≡ has_work (node_in (sites_of sites.now).nodes x) }
{
    first_request(sites, x).is_some() || first_pending(sites, x).is_some()
}

/// How many requests are to leave a node.
pub fn request_count(sites: &[Site], x: usize) -> usize
    requires { x < length sites.now }
    ensures { result ≡ length (node_in (sites_of sites.now).nodes x).requests }
{
    sites[x].requests.len()
}

/// The port by which packets to an EPID leave a node.
pub fn exit(sites: &[Site], x: usize, dst: Epid) -> Option<u8>
    requires { x < length sites.now }
    ensures { result ≡ leaves_of (shape_seen (sites_of sites.now).shapes x) (node_in (sites_of sites.now).nodes x).table dst }
{
    sites[x].node.exit(dst)
}

/// Room for one packet more in each list of a node that an event may append to.
pub fn reserve(sites: &mut Vec<Site>, x: usize) -> Result<(), Memory>
    requires { x < length sites.old.items }
    ensures nodes { (sites_of sites.new.items).nodes ≡ (sites_of sites.old.items).nodes }
    ensures shapes { (sites_of sites.new.items).shapes ≡ (sites_of sites.old.items).shapes }
    ensures pending { OnOk result (0 < (spare_seen (sites_of sites.new.items).spares x).pending) }
    ensures answers { OnOk result (0 < (spare_seen (sites_of sites.new.items).spares x).answers) }
{
    let site = &mut sites[x];
    site.pending.reserve()?;
    site.answers.reserve()
}

/// The first request leaves a node.
pub fn take_request(sites: &mut Vec<Site>, x: usize) -> Option<Packet>
    requires { x < length sites.old.items }
    ensures nodes { (p : PacketValue) (rest : List PacketValue) → (node_in (sites_of sites.old.items).nodes x).requests ≡ p ∷ rest →
        (result ≡ Some p) × ((sites_of sites.new.items).nodes
        ≡ on_site x (λ n. record n { requests = rest }) (sites_of sites.old.items).nodes) }
    ensures shapes { (sites_of sites.new.items).shapes ≡ (sites_of sites.old.items).shapes }
{
    let site = &mut sites[x];
    site.requests.pop()
}

/// The first answer that is to leave a node leaves it.
pub fn take_pending(sites: &mut Vec<Site>, x: usize) -> Option<Packet>
    requires { x < length sites.old.items }
    ensures nodes { (p : PacketValue) (rest : List PacketValue) → (node_in (sites_of sites.old.items).nodes x).pending ≡ p ∷ rest →
        (result ≡ Some p) × ((sites_of sites.new.items).nodes
        ≡ on_site x (λ n. record n { pending = rest }) (sites_of sites.old.items).nodes) }
    ensures shapes { (sites_of sites.new.items).shapes ≡ (sites_of sites.old.items).shapes }
{
    let site = &mut sites[x];
    site.pending.pop()
}

/// The first answer that came to a node is taken out.
pub fn take_answer(sites: &mut Vec<Site>, x: usize) -> Option<Packet>
    requires { x < length sites.old.items }
    ensures answer { result ≡ slice_get (node_in (sites_of sites.old.items).nodes x).answers 0 }
    ensures nodes { (sites_of sites.new.items).nodes
        ≡ on_site x (λ n. record n { answers = drop 1 n.answers }) (sites_of sites.old.items).nodes }
    ensures shapes { (sites_of sites.new.items).shapes ≡ (sites_of sites.old.items).shapes }
{
    let site = &mut sites[x];
    site.answers.pop()
}

/// An answer is to leave a node.
pub fn pend(sites: &mut Vec<Site>, x: usize, packet: Packet)
    requires there { x < length sites.old.items }
    requires room { 0 < (spare_seen (sites_of sites.old.items).spares x).pending }
    ensures nodes { (sites_of sites.new.items).nodes
        ≡ on_site x (λ n. record n { pending = n.pending ++ packet ∷ [] }) (sites_of sites.old.items).nodes }
    ensures shapes { (sites_of sites.new.items).shapes ≡ (sites_of sites.old.items).shapes }
{
    let site = &mut sites[x];
    site.pending.push_reserved(packet);
}

/// An answer came to a node.
pub fn answer(sites: &mut Vec<Site>, x: usize, packet: Packet)
    requires there { x < length sites.old.items }
    requires room { 0 < (spare_seen (sites_of sites.old.items).spares x).answers }
    ensures nodes { (sites_of sites.new.items).nodes
        ≡ on_site x (λ n. record n { answers = n.answers ++ packet ∷ [] }) (sites_of sites.old.items).nodes }
    ensures shapes { (sites_of sites.new.items).shapes ≡ (sites_of sites.old.items).shapes }
{
    let site = &mut sites[x];
    site.answers.push_reserved(packet);
}

/// A request is given to a node. At `Err` nothing changes, and the packet is dropped.
pub fn ask(sites: &mut Vec<Site>, x: usize, packet: Packet) -> Result<(), Memory>
    requires { x < length sites.old.items }
    ensures ok { OnOk result ((sites_of sites.new.items).nodes
        ≡ on_site x (λ n. record n { requests = n.requests ++ packet ∷ [] }) (sites_of sites.old.items).nodes) }
    ensures err { OnErr result ((sites_of sites.new.items).nodes ≡ (sites_of sites.old.items).nodes) }
    ensures shapes { (sites_of sites.new.items).shapes ≡ (sites_of sites.old.items).shapes }
{
    let site = &mut sites[x];
    site.requests.push(packet)
}

/// A node performs the first hop of a packet that came by a port, and takes it off.
pub fn perform(sites: &mut Vec<Site>, x: usize, m: &mut Management, port_in: u8, room: Room) -> Done
    requires there { x < length sites.old.items }
    requires port { HasPort (shape_seen (sites_of sites.old.items).shapes x) port_in }
    requires hops { 2 ≤ length m.old.hops }
    requires room { length (last_hop m.old) + asked_in (first_hop m.old) ≤ room }
    ensures exit { result ≡ (performed (site_of (shape_seen (sites_of sites.old.items).shapes x) port_in)
        (node_in (sites_of sites.old.items).nodes x).table m.old).exit }
    ensures nodes { (sites_of sites.new.items).nodes ≡ on_site x (λ n. record n {
      table =
          (performed (site_of (shape_seen (sites_of sites.old.items).shapes x) port_in) n.table m.old).table;
    })
        (sites_of sites.old.items).nodes }
    ensures packet { m.new ≡ without_first m.old (performed (site_of (shape_seen (sites_of sites.old.items).shapes x) port_in)
        (node_in (sites_of sites.old.items).nodes x).table m.old).last }
    ensures shapes { (sites_of sites.new.items).shapes ≡ (sites_of sites.old.items).shapes }
    ensures spares { (sites_of sites.new.items).spares ≡ (sites_of sites.old.items).spares }
{
    let site = &mut sites[x];
    site.node.perform(m, port_in, room)
}
