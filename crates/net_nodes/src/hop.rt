ghost use Rattle.std.specs.Prelude.{◌≡◌, ◌+◌, ◌≤◌, ◌<◌, [], IsTrue, length, drop, fold};
ghost use Rattle.std.specs.Vec.{vec_len, vec_capacity};
ghost use Rattle.chdr_words.specs.NodeInfo.{FitsInfo};
ghost use Rattle.net_nodes.specs.Operations.{asked, asked_in};
ghost use Rattle.net_nodes.specs.Perform.{has_link, exit_by, work_of, effect, operated, first_hop, last_hop, performed, without_first, read_answer};

use crate::{Done, Room, Site, Table};
use chdr_words::{Cfg, Epid, Hop, Management, MgmtOp, Operation};
use rf_base::Items;
use std::alloc::Global;
use std::mem;

fn has_link(linked: u32, port: u16) -> bool
    ensures value { result ≡ has_link linked port }
    ensures small { IsTrue result → port < 32 }
{
    port < 32 && (linked >> port) % 2 == 1
}

fn exit_by(site: &Site, port: u16) -> Done
    ensures { result ≡ exit_by site.now port }
{
    if has_link(site.linked, port) && port != site.arrival as u16 {
        Done::Forward(port as u8)
    } else {
        Done::NoSuchPort(port)
    }
}

fn read_answer(table: &Table, addr: u16) -> MgmtOp
    ensures { result ≡ read_answer table.now addr }
{
    let value = match table.exit(Epid(addr)) {
        Some(port) => port as u32,
        None => 0xffff_ffff,
    };
    Operation::CfgReadResp(Cfg { addr, value }).spelled()
}

/// One operation of a packet from `src`; `last` is the packet's last hop as it grows.
fn perform_operation(
    site: &Site,
    src: Epid,
    operation: Operation,
    table: &mut Table,
    exit: &mut Done,
    last: &mut Vec<MgmtOp>,
)
    requires info { FitsInfo site.now.info }
    requires room { vec_len last.old + asked operation ≤ vec_capacity last.old }
    ensures work { work_of table.new exit.new last.new.items
        ≡ effect site.now src (work_of table.old exit.old last.old.items) operation }
    ensures len { vec_len last.new ≡ vec_len last.old + asked operation }
    ensures room { vec_capacity last.new ≡ vec_capacity last.old }
{
    match operation {
        Operation::Nop => {}
        Operation::Advertise => table.set(src, site.arrival),
        Operation::SelectDest(port) => *exit = exit_by(site, port),
        Operation::Return => *exit = Done::Return,
        Operation::InfoReq => last.push_reserved(Operation::InfoResp(site.info).spelled()),
        Operation::InfoResp(_) => {}
        Operation::CfgWrite(cfg) => {
            if cfg.value < site.ports as u32 {
                table.set(Epid(cfg.addr), cfg.value as u8);
            }
        }
        Operation::CfgRead(addr) => last.push_reserved(read_answer(table, addr)),
        Operation::CfgReadResp(_) => {}
        Operation::Other(_) => {}
    }
}

/// The operations of a hop of a packet from `src`, in order; `last` is the packet's last hop.
#[tactic(auto, using(crate::proofs::HopLemmas::hop_lemmas))]
fn perform_operations(
    site: &Site,
    src: Epid,
    ops: &[MgmtOp],
    table: &mut Table,
    last: &mut Vec<MgmtOp>,
) -> Done
    requires info { FitsInfo site.now.info }
    requires room { vec_len last.old + asked_in ops.now ≤ vec_capacity last.old }
    ensures { work_of table.new result last.new.items ≡ fold (operated site.now src)
        (work_of table.old Done.Dead last.old.items) ops.now }
{
    let mut exit = Done::Dead;
    for op in ops {
        perform_operation(site, src, Operation::of(*op), table, &mut exit, last);
    }
    exit
}

/// A hop in memory that holds more.
fn in_room(ops: &[MgmtOp], room: Room) -> Vec<MgmtOp>
    requires { length ops.now ≤ room }
    ensures items { result.items ≡ ops.now }
    ensures room { vec_capacity result ≡ room }
{
    let mut held = room.into_vec();
    for op in ops {
        held.push_reserved(*op);
    }
    held
}

/// Takes the hops out of a packet: the first one, and those behind it.
fn take_hops(alloc: Global, m: &mut Management) -> (Hop, Vec<Hop>)
    requires { 1 ≤ length m.old.hops }
    ensures first { result.0 ≡ first_hop m.old }
    ensures rest { result.1.items ≡ drop 1 m.old.hops }
    ensures left { m.new ≡ record m.old { hops = [] } }
{
    let mut hops = mem::replace(&mut m.hops, Items::new(alloc)).into_vec();
    let first = hops.remove(0);
    (first, hops)
}

/// Performs the first hop of a packet: its operations in order, with their answers in the last hop.
pub(crate) fn perform_hop(site: &Site, table: &mut Table, m: &mut Management, room: Room) -> Done
    requires info { FitsInfo site.now.info }
    requires hops { 2 ≤ length m.old.hops }
    requires room { length (last_hop m.old) + asked_in (first_hop m.old) ≤ room }
    ensures work { work_of table.new result (last_hop m.new)
        ≡ performed site.now table.old m.old }
    ensures packet { m.new ≡ without_first m.old (last_hop m.new) }
{
    let (first, mut hops) = take_hops(room.allocator(), m);
    let at = hops.len() - 1;
    let mut last = in_room(hops[at].as_slice(), room);
    let exit = perform_operations(site, m.src, first.as_slice(), table, &mut last);
    hops[at] = Items::from_vec(last);
    m.hops = Items::from_vec(hops);
    exit
}
