use block_library::BlockKind;
use chdr_words::Epid;
use graph_core::{PortAt, Side};
use net_machine::StreamEnd;
use rf_base::{Items, Memory};
use rf_script_types::ScriptCommand;
use script_books::{Book, Refusal, RunBook, end_at, kind_at, refused, undrained};
use std::alloc::Global;
use std::test::Fail;
use stream_endpoint::{Flow, Policy};

fn run_with(alloc: Global, ends: &[StreamEnd]) -> Result<Book, Memory> {
    Ok(Book::Run(RunBook {
        journal: Items::new(alloc),
        ends: Items::from_vec(Vec::from_slice(alloc, ends)?),
        tallies: Items::new(alloc),
        taken: Items::new(alloc),
        lines: Items::new(alloc),
    }))
}

#[test]
fn refusals_and_open_ends_are_counted(rt: HostRuntime) -> Result<(), Fail> {
    let broken = StreamEnd::Broken {
        expected: 2,
        got: 3,
    };
    let open = StreamEnd::Undrained { sent: 6, acked: 5 };
    let mut list = Vec::new(rt.alloc());
    list.push(Book::Refused(Refusal::NoNet))?;
    list.push(run_with(rt.alloc(), &[open, StreamEnd::Drained])?)?;
    list.push(run_with(rt.alloc(), &[broken])?)?;
    list.push(Book::Refused(Refusal::NoAck))?;
    assert_eq!(rt; refused(list.as_slice()), 2);
    assert_eq!(rt; undrained(list.as_slice()), 2);
    Ok(())
}

fn tx(alloc: Global, epid: u16) -> Result<ScriptCommand, Memory> {
    Ok(ScriptCommand::Block {
        kind: BlockKind::Tx,
        ins: Items::new(alloc),
        outs: Items::from_vec(Vec::from_slice(alloc, &[Epid(epid)])?),
        packets: 3,
        time: None,
    })
}

fn connect() -> ScriptCommand {
    ScriptCommand::Connect {
        from: PortAt { block: 0, port: 0 },
        to: PortAt { block: 1, port: 0 },
        flow: Flow {
            cap_bytes: 65536,
            cap_packets: 32,
            freq_bytes: 8192,
            freq_packets: 8,
            max: 8192,
        },
        start: 0,
        policy: Policy::Auto,
    }
}

#[test]
fn a_number_is_that_of_the_last_book_that_tells_it(rt: HostRuntime) -> Result<(), Fail> {
    let alloc = rt.alloc();
    let mut commands = Vec::new(alloc);
    let mut books = Vec::new(alloc);
    for epid in [1u16, 2, 3] {
        commands.push(tx(alloc, epid)?)?;
        books.push(Book::Block(0))?;
        commands.push(connect())?;
        books.push(Book::Connect(0))?;
    }
    for (end, epid) in [(2usize, 1u16), (4, 2), (6, 3)] {
        let made = end_at(commands.as_slice(), books.as_slice(), end, Side::Out, 0);
        assert_eq!(rt; made, Some(Epid(epid)));
    }
    let (commands, books) = (commands.as_slice(), books.as_slice());
    assert_eq!(rt; kind_at(commands, books, 6, 0), Some(BlockKind::Tx));
    assert_eq!(rt; kind_at(commands, books, 6, 1), None);
    assert_eq!(rt; end_at(commands, books, 1, Side::Out, 0), None);
    assert_eq!(rt; end_at(commands, books, 6, Side::Into, 0), None);
    Ok(())
}
