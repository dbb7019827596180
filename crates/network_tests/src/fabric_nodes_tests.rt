use chdr_packets::{Body, Packet};
use chdr_words::{Bytes, Epid, EpidList};
use fabric_nodes::{NodePart, Packets, Wires};
use net_topology::{LinkPlan, NodePlan, Plan, PlanFault, Topology};
use rf_base::{Items, Memory};
use std::alloc::Global;
use std::test::Fail;

/// A host, a crossbar of three ports and an endpoint with a bank; port 1 of the crossbar is bare.
fn a_tree(alloc: Global) -> Result<Topology, PlanFault> {
    let nodes = [
        NodePlan::Host { epid: Epid(1) },
        NodePlan::Crossbar { ports: 3 },
        NodePlan::Endpoint {
            epid: Epid(2),
            bank: Some(5),
        },
    ];
    let links = [
        LinkPlan {
            a: 0,
            a_port: 0,
            b: 1,
            b_port: 0,
        },
        LinkPlan {
            a: 1,
            a_port: 2,
            b: 2,
            b_port: 0,
        },
    ];
    let plan = Plan {
        nodes: Items::from_vec(Vec::from_slice(alloc, &nodes)?),
        links: Items::from_vec(Vec::from_slice(alloc, &links)?),
        room: 4,
        limit: 64,
    };
    if plan.fits() {
        Topology::check(alloc, &plan)
    } else {
        Err(PlanFault::Memory)
    }
}

#[test]
fn look_ups_answer_as_the_tree_does(rt: HostRuntime) -> Result<(), Fail> {
    let topology = a_tree(rt.alloc())?;
    let wires = Wires::new(rt.alloc(), &topology)?;
    for node in 0..4 {
        for port in 0..40 {
            assert_eq!(rt; wires.link_at(node, port), topology.link_at(node, port));
        }
    }
    assert_eq!(rt; wires.node_with(Epid(2)), Some(2));
    assert_eq!(rt; wires.node_with(Epid(3)), None);
    assert_eq!(rt; wires.first_link(Epid(2)), Some(3));
    Ok(())
}

#[test]
fn nodes_are_as_they_were_planned(rt: HostRuntime) -> Result<(), Fail> {
    let topology = a_tree(rt.alloc())?;
    let wires = Wires::new(rt.alloc(), &topology)?;
    if topology.has_node(2) && topology.has_link(2) {
        assert!(rt; wires.is_host(0));
        assert!(rt; !wires.is_host(2));
        assert_eq!(rt; wires.slot_at(2, 5), Some(5));
        assert_eq!(rt; wires.turned_to(0, 2), Some(2));
        assert_eq!(rt; wires.turned_to(0, 0), None);
    }
    Ok(())
}

#[test]
fn an_end_node_has_one_exit(rt: HostRuntime) -> Result<(), Fail> {
    let topology = a_tree(rt.alloc())?;
    let wires = Wires::new(rt.alloc(), &topology)?;
    let epids: EpidList = Items::from_vec(Vec::from_slice(rt.alloc(), &[Epid(1), Epid(2)])?);
    if topology.has_node(2) {
        let crossbar = NodePart::new(rt.alloc(), &wires, 1, &epids)?;
        assert_eq!(rt; crossbar.exit(Epid(2)), None);
        let end = NodePart::new(rt.alloc(), &wires, 2, &epids)?;
        assert_eq!(rt; end.exit(Epid(1)), Some(0));
    }
    Ok(())
}

fn a_packet(alloc: Global, seq: u16) -> Packet {
    let payload: Bytes = Items::new(alloc);
    Packet {
        vc: 0,
        eob: false,
        eov: false,
        seq,
        dst: Epid(0),
        mdata: Items::new(alloc),
        body: Body::Samples {
            time: None,
            payload,
        },
    }
}

#[test]
fn packets_leave_in_the_order_in_which_they_came(rt: HostRuntime) -> Result<(), Fail> {
    let mut packets = Packets::new(rt.alloc());
    packets.push(a_packet(rt.alloc(), 1))?;
    packets.reserve()?;
    packets.push_reserved(a_packet(rt.alloc(), 2));
    assert_eq!(rt; packets.len(), 2);
    assert_eq!(rt; packets.first().map(|packet| packet.seq), Some(1));
    assert_eq!(rt; packets.pop().map(|packet| packet.seq), Some(1));
    assert_eq!(rt; packets.pop().map(|packet| packet.seq), Some(2));
    assert!(rt; packets.pop().is_none());
    Ok(())
}
