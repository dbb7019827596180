ghost use Rattle.std.specs.Prelude.{◌≡◌, ◌≤◌, ◌<◌, length, IfOk};
ghost use Rattle.net_nodes.specs.Budget.{performed_packet};
ghost use Rattle.net_nodes.specs.Perform.{performed};
ghost use Rattle.net_nodes.specs.Switch.{crossbar_site};

use chdr_words::{Epid, EpidList, Hop, Management, MgmtOp};
use net_nodes::{Adapter, Crossbar, Done, EndNode, asked_answers, reserve_answers};
use rf_base::{Items, Memory};
use std::alloc::Global;
use std::test::Fail;

const fn op(code: u8, payload: u64) -> MgmtOp {
    MgmtOp { code, payload }
}

/// CFG_WR_REQ that makes a port the entry of an EPID.
const fn write(epid: u16, port: u32) -> MgmtOp {
    op(6, port as u64 * 65536 + epid as u64)
}

/// A packet whose first hop has these operations, and whose last hop is one NOP.
fn packet(alloc: Global, src: u16, ops: &[MgmtOp]) -> Result<Management, Memory>
    ensures { IfOk result (λ m. length m.hops ≡ 2) }
{
    let first = Items::from_vec(Vec::from_slice(alloc, ops)?);
    let last: Hop = Items::from_vec(Vec::from_slice(alloc, &[op(0, 0)])?);
    let mut hops = Items::new(alloc);
    hops.push(first)?;
    hops.push(last)?;
    Ok(Management {
        version: 0x0100,
        width: 0,
        src: Epid(src),
        hops,
    })
}

fn epids(alloc: Global) -> Result<EpidList, Memory> {
    Ok(Items::from_vec(Vec::from_slice(alloc, &[Epid(9), Epid(5)])?))
}

/// What a hop left: the exit, the last answer, and the entries of EPIDs 9 and 5.
type Left = (Done, Option<MgmtOp>, Option<u8>, Option<u8>);

/// The last operation of a packet of one hop, where it isn't the NOP that stood there.
fn answer(m: &Management) -> Option<MgmtOp> {
    match m.hops.as_slice() {
        [last] => match last.as_slice() {
            [_, .., answer] => Some(*answer),
            [_] | [] => None,
        },
        _ => None,
    }
}

/// A crossbar of number 1 and 4 ports, of which all but port 3 have links; packets come by port 1.
fn at_crossbar(alloc: Global, src: u16, ops: &[MgmtOp]) -> Result<Left, Memory> {
    let mut node = Crossbar::new(alloc, 1, 4, 0b0111, &epids(alloc)?)?;
    let mut m = packet(alloc, src, ops)?;
    let room = reserve_answers(alloc, &m, asked_answers(&m))?;
    let done = node.perform(&mut m, 1, room);
    Ok((done, answer(&m), node.route(Epid(9)), node.route(Epid(5))))
}

/// An adapter of number 2 whose ports both have links; packets come by port 0.
fn at_adapter(alloc: Global, src: u16, ops: &[MgmtOp]) -> Result<Left, Memory> {
    let mut node = Adapter::new(alloc, 2, 2, 0b11, &epids(alloc)?)?;
    let mut m = packet(alloc, src, ops)?;
    let room = reserve_answers(alloc, &m, asked_answers(&m))?;
    let done = node.perform(&mut m, 0, room);
    Ok((done, answer(&m), node.route(Epid(9)), node.route(Epid(5))))
}

/// An end node of number 3 with EPID 9, which has no table.
fn at_end(alloc: Global, src: u16, ops: &[MgmtOp]) -> Result<Left, Memory> {
    let node = EndNode {
        instance: 3,
        epid: Epid(9),
    };
    let mut m = packet(alloc, src, ops)?;
    let room = reserve_answers(alloc, &m, asked_answers(&m))?;
    let done = node.perform(&mut m, room);
    Ok((done, answer(&m), None, None))
}

const NOTHING: Left = (Done::Dead, None, None, None);

/// Passes a probe on through two crossbars, to each of which it comes by port 1: each performs its
/// first hop then.
fn probe(
    alloc: Global,
    near: &mut Crossbar,
    far: &mut Crossbar,
    m: &mut Management,
) -> Result<(Done, Done), Memory>
    requires hops { 3 ≤ length m.old.hops }
    requires near { 1 < near.old.ports }
    requires far { 1 < far.old.ports }
    ensures near { IfOk result (λ done. done.0 ≡ (performed (crossbar_site near.old 1)
        near.old.table m.old).exit) }
    ensures far { IfOk result (λ done. done.1 ≡ (performed (crossbar_site far.old 1) far.old.table
        (performed_packet (crossbar_site near.old 1) near.old.table m.old)).exit) }
    ensures packet { IfOk result (λ _. m.new ≡ performed_packet (crossbar_site far.old 1)
        far.old.table (performed_packet (crossbar_site near.old 1) near.old.table m.old)) }
{
    let room = reserve_answers(alloc, m, asked_answers(m))?;
    let by_near = near.perform(m, 1, room);
    let room = reserve_answers(alloc, m, asked_answers(m))?;
    let by_far = far.perform(m, 1, room);
    Ok((by_near, by_far))
}

/// A packet of three hops: one for each of two crossbars, and the last.
fn probe_packet(alloc: Global, near: &[MgmtOp], far: &[MgmtOp]) -> Result<Management, Memory>
    ensures { IfOk result (λ m. length m.hops ≡ 3) }
{
    let mut hops = Items::new(alloc);
    hops.push(Items::from_vec(Vec::from_slice(alloc, near)?))?;
    hops.push(Items::from_vec(Vec::from_slice(alloc, far)?))?;
    hops.push(Items::from_vec(Vec::from_slice(alloc, &[op(0, 0)])?))?;
    Ok(Management {
        version: 0x0100,
        width: 0,
        src: Epid(9),
        hops,
    })
}

#[test]
fn a_probe_learns_of_two_crossbars(rt: HostRuntime) -> Result<(), Fail> {
    let alloc = rt.alloc();
    let mut near = Crossbar::new(alloc, 1, 4, 0b0111, &epids(alloc)?)?;
    let mut far = Crossbar::new(alloc, 2, 2, 0b10, &epids(alloc)?)?;
    let mut m = probe_packet(
        alloc,
        &[op(4, 0), op(1, 0), op(2, 2)],
        &[op(1, 0), op(4, 0), op(3, 0)],
    )?;
    let done = probe(alloc, &mut near, &mut far, &mut m)?;
    assert_eq!(rt; done, (Done::Forward(2), Done::Return));
    assert_eq!(rt;
        (near.route(Epid(9)), far.route(Epid(9))),
        (Some(1), Some(1))
    );
    let wanted = [
        op(0, 0),
        op(5, 260 << 30 | 1 << 20 | 1 << 16 | 1),
        op(5, 258 << 30 | 2 << 20 | 1 << 16 | 1),
    ];
    assert_eq!(rt; m.hops.len(), 1);
    for hop in m.hops.as_slice() {
        assert_eq!(rt; hop.as_slice(), wanted.as_slice());
    }
    Ok(())
}

#[test]
fn operations_without_effect_leave_a_packet_dead(rt: HostRuntime) -> Result<(), Fail> {
    for code in [0, 5, 8, 9, 255] {
        let ops = [op(code, 0xffff_ffff_ffff)];
        assert_eq!(rt; at_crossbar(rt.alloc(), 9, &ops)?, NOTHING);
        assert_eq!(rt; at_adapter(rt.alloc(), 9, &ops)?, NOTHING);
        assert_eq!(rt; at_end(rt.alloc(), 9, &ops)?, NOTHING);
    }
    Ok(())
}

#[test]
fn advertise_stores_the_port_of_arrival(rt: HostRuntime) -> Result<(), Fail> {
    let ops = [op(1, 0)];
    assert_eq!(rt;
        at_crossbar(rt.alloc(), 9, &ops)?,
        (Done::Dead, None, Some(1), None)
    );
    assert_eq!(rt;
        at_adapter(rt.alloc(), 5, &ops)?,
        (Done::Dead, None, None, Some(0))
    );
    assert_eq!(rt; at_end(rt.alloc(), 9, &ops)?, NOTHING);
    Ok(())
}

#[test]
fn an_epid_without_a_place_changes_nothing(rt: HostRuntime) -> Result<(), Fail> {
    assert_eq!(rt; at_crossbar(rt.alloc(), 7, &[op(1, 0)])?, NOTHING);
    assert_eq!(rt; at_adapter(rt.alloc(), 7, &[op(1, 0)])?, NOTHING);
    assert_eq!(rt; at_crossbar(rt.alloc(), 9, &[write(7, 2)])?, NOTHING);
    assert_eq!(rt; at_adapter(rt.alloc(), 9, &[write(7, 1)])?, NOTHING);
    Ok(())
}

#[test]
fn a_packet_is_sent_on_by_a_linked_port_it_did_not_come_by(rt: HostRuntime) -> Result<(), Fail> {
    for (payload, done) in [
        (0, Done::Forward(0)),
        (1, Done::NoSuchPort(1)),
        (2, Done::Forward(2)),
        (3, Done::NoSuchPort(3)),
        (600, Done::NoSuchPort(600)),
        (1026, Done::Forward(2)),
    ] {
        let left = at_crossbar(rt.alloc(), 9, &[op(2, payload)])?;
        assert_eq!(rt; left, (done, None, None, None), "with {payload}");
    }
    Ok(())
}

#[test]
fn an_adapter_sends_on_by_its_other_port(rt: HostRuntime) -> Result<(), Fail> {
    for (port, done) in [
        (0, Done::NoSuchPort(0)),
        (1, Done::Forward(1)),
        (2, Done::NoSuchPort(2)),
    ] {
        let left = at_adapter(rt.alloc(), 9, &[op(2, port)])?;
        assert_eq!(rt; left, (done, None, None, None));
    }
    let back = at_adapter(rt.alloc(), 9, &[op(3, 0)])?;
    assert_eq!(rt; back, (Done::Return, None, None, None));
    Ok(())
}

#[test]
fn an_end_node_sends_nothing_on(rt: HostRuntime) -> Result<(), Fail> {
    for port in [0, 1] {
        let left = at_end(rt.alloc(), 9, &[op(2, port)])?;
        assert_eq!(rt; left, (Done::NoSuchPort(port as u16), None, None, None));
    }
    assert_eq!(rt; at_end(rt.alloc(), 9, &[op(3, 0)])?.0, Done::Return);
    Ok(())
}

#[test]
fn the_last_exit_of_a_hop_counts(rt: HostRuntime) -> Result<(), Fail> {
    let back = at_crossbar(rt.alloc(), 9, &[op(2, 2), op(3, 0)])?;
    assert_eq!(rt; back.0, Done::Return);
    let on = at_crossbar(rt.alloc(), 9, &[op(3, 0), op(2, 2), op(0, 0)])?;
    assert_eq!(rt; on.0, Done::Forward(2));
    Ok(())
}

#[test]
fn a_node_tells_what_it_is(rt: HostRuntime) -> Result<(), Fail> {
    for (left, info) in [
        (
            at_crossbar(rt.alloc(), 9, &[op(4, 0)])?,
            260 << 30 | 1 << 20 | 1 << 16 | 1,
        ),
        (
            at_adapter(rt.alloc(), 9, &[op(4, 0)])?,
            2 << 30 | 2 << 20 | 3 << 16 | 1,
        ),
        (
            at_end(rt.alloc(), 9, &[op(4, 0)])?,
            9 << 30 | 3 << 20 | 2 << 16 | 1,
        ),
    ] {
        assert_eq!(rt; left, (Done::Dead, Some(op(5, info)), None, None));
    }
    Ok(())
}

#[test]
fn the_information_of_a_crossbar_of_two_ports(rt: HostRuntime) -> Result<(), Fail> {
    let alloc = rt.alloc();
    let mut node = Crossbar::new(alloc, 1, 2, 0b11, &epids(alloc)?)?;
    let mut m = packet(alloc, 9, &[op(4, 0)])?;
    let room = reserve_answers(alloc, &m, asked_answers(&m))?;
    let _ = node.perform(&mut m, 0, room);
    assert_eq!(rt; answer(&m), Some(op(5, 0x8011_0001)));
    Ok(())
}

#[test]
fn a_write_reaches_only_ports_that_are_there(rt: HostRuntime) -> Result<(), Fail> {
    for (port, entry) in [(0, Some(0)), (3, Some(3)), (4, None), (0xffff_ffff, None)] {
        let left = at_crossbar(rt.alloc(), 9, &[write(5, port)])?;
        assert_eq!(rt; left, (Done::Dead, None, None, entry));
    }
    assert_eq!(rt; at_adapter(rt.alloc(), 9, &[write(5, 1)])?.3, Some(1));
    assert_eq!(rt; at_adapter(rt.alloc(), 9, &[write(5, 2)])?, NOTHING);
    assert_eq!(rt; at_end(rt.alloc(), 9, &[write(5, 0)])?, NOTHING);
    Ok(())
}

#[test]
fn a_read_tells_the_entry_as_it_is_then(rt: HostRuntime) -> Result<(), Fail> {
    let none = Some(op(8, 0xffff_ffff_0005));
    assert_eq!(rt; at_crossbar(rt.alloc(), 9, &[op(7, 5)])?.1, none);
    assert_eq!(rt; at_adapter(rt.alloc(), 9, &[op(7, 5)])?.1, none);
    assert_eq!(rt; at_end(rt.alloc(), 9, &[op(7, 5)])?.1, none);
    let unlisted = at_crossbar(rt.alloc(), 9, &[op(7, 7)])?.1;
    assert_eq!(rt; unlisted, Some(op(8, 0xffff_ffff_0007)));
    let left = at_crossbar(rt.alloc(), 9, &[write(5, 2), op(7, 5)])?;
    assert_eq!(rt; left, (Done::Dead, Some(op(8, 0x2_0005)), None, Some(2)));
    Ok(())
}

#[test]
fn answers_stand_in_the_order_of_their_requests(rt: HostRuntime) -> Result<(), Fail> {
    let alloc = rt.alloc();
    let mut node = Crossbar::new(alloc, 1, 2, 0b11, &epids(alloc)?)?;
    let mut m = packet(alloc, 9, &[op(7, 5), op(4, 0)])?;
    let room = reserve_answers(alloc, &m, asked_answers(&m))?;
    let _ = node.perform(&mut m, 0, room);
    let wanted = [op(0, 0), op(8, 0xffff_ffff_0005), op(5, 0x8011_0001)];
    assert_eq!(rt; m.hops.len(), 1);
    for hop in m.hops.as_slice() {
        assert_eq!(rt; hop.as_slice(), wanted.as_slice());
    }
    Ok(())
}

#[test]
fn an_entry_can_be_set_where_there_is_a_place(rt: HostRuntime) -> Result<(), Fail> {
    let mut node = Crossbar::new(rt.alloc(), 0, 4, 0, &epids(rt.alloc())?)?;
    node.set(Epid(5), 3);
    node.set(Epid(7), 2);
    assert_eq!(rt; node.route(Epid(5)), Some(3));
    assert_eq!(rt; node.route(Epid(7)), None);
    assert_eq!(rt; node.route(Epid(9)), None);
    Ok(())
}
