ghost use Rattle.block_library.specs.Blocks.{FitsKind};

use block_library::BlockKind;
use graph_core::{ConnectFault, Graph, PortAt, Prop, PropAt, SetFault, Side, Values};
use rf_base::Memory;
use std::test::Fail;

fn add(graph: &mut Graph, kind: BlockKind) -> Result<u16, Memory>
    requires { FitsKind kind }
{
    if graph.kinds().len() >= 32 {
        return Err(Memory);
    }
    graph.add(kind)
}

fn port(block: u16, port: u16) -> PortAt {
    PortAt { block, port }
}

fn rate_at(block: u16, side: Side, port: u16) -> PropAt {
    PropAt {
        block,
        side,
        port,
        prop: Prop::Rate,
    }
}

#[test]
fn a_table_keeps_the_order_and_the_last_value(rt: HostRuntime) -> Result<(), Fail> {
    let (one, other) = (rate_at(1, Side::Out, 0), rate_at(0, Side::Into, 0));
    let mut values = Values::new(rt.alloc());
    assert!(rt; values.is_empty());
    values.put(one, 8)?;
    values.put(other, 4)?;
    values.put(one, 2)?;
    assert_eq!(rt; values.len(), 2);
    assert_eq!(rt; values.get(one), Some(2));
    assert_eq!(rt; values.get(other), Some(4));
    assert_eq!(rt; values.get(rate_at(0, Side::Out, 0)), None);
    assert_eq!(rt; values.pair(0), Some((one, 2)));
    assert_eq!(rt; values.pair(2), None);
    Ok(())
}

#[test]
fn an_edge_is_refused_for_the_first_cause(rt: HostRuntime) -> Result<(), Fail> {
    let mut graph = Graph::new(rt.alloc());
    assert_eq!(rt; add(&mut graph, BlockKind::Switch(0))?, 0);
    assert_eq!(rt; add(&mut graph, BlockKind::Split)?, 1);
    assert_eq!(rt; add(&mut graph, BlockKind::Fifo)?, 2);
    assert_eq!(rt; graph.connect(port(0, 0), port(1, 0)), Ok(0));
    assert_eq!(rt; graph.connect(port(1, 1), port(2, 0)), Ok(1));
    for (from, to, want) in [
        (port(3, 0), port(0, 0), ConnectFault::BadPort),
        (port(0, 1), port(1, 0), ConnectFault::BadPort),
        (port(1, 0), port(0, 2), ConnectFault::BadPort),
        (port(0, 0), port(0, 1), ConnectFault::PortTaken),
        (port(2, 0), port(1, 0), ConnectFault::PortTaken),
        (port(1, 0), port(0, 1), ConnectFault::Cycle),
        (port(2, 0), port(0, 0), ConnectFault::Cycle),
    ] {
        assert_eq!(rt; graph.connect(from, to), Err(want));
    }
    assert_eq!(rt; graph.edges().len(), 2);
    Ok(())
}

#[test]
fn an_edge_to_its_own_block_is_a_cycle(rt: HostRuntime) -> Result<(), Fail> {
    let mut graph = Graph::new(rt.alloc());
    add(&mut graph, BlockKind::Fifo)?;
    assert_eq!(rt;
        graph.connect(port(0, 0), port(0, 0)),
        Err(ConnectFault::Cycle)
    );
    Ok(())
}

#[test]
fn a_value_is_set_at_a_port_alone(rt: HostRuntime) -> Result<(), Fail> {
    let mut graph = Graph::new(rt.alloc());
    add(&mut graph, BlockKind::Tx)?;
    let at = rate_at(0, Side::Out, 0);
    assert_eq!(rt;
        graph.set(rate_at(0, Side::Into, 0), 8),
        Err(SetFault::NoProperty)
    );
    assert_eq!(rt;
        graph.set(rate_at(1, Side::Out, 0), 8),
        Err(SetFault::NoProperty)
    );
    assert_eq!(rt; graph.user(at), None);
    assert_eq!(rt; graph.set(at, 8), Ok(()));
    assert_eq!(rt; graph.set(at, 4), Ok(()));
    assert_eq!(rt; graph.user(at), Some(4));
    assert_eq!(rt; graph.users().len(), 1);
    assert_eq!(rt; graph.value(at), None);
    assert!(rt; !graph.is_committed());
    assert!(rt; graph.no_values().is_empty());
    Ok(())
}
