//! Whole runs of the program: blocks, graphs that don't settle, names, limits.
use crate::tests::{REPORT, SCRIPT, run, run_changed, run_words};
use std::alloc::{AllocError, Global};
use std::test::Fail;

pub(crate) fn joined(alloc: Global, pieces: &[&str]) -> Result<String, AllocError> {
    let mut text = String::new(alloc);
    for piece in pieces {
        text.push_str(*piece)?;
    }
    Ok(text)
}

/// A tx at host 1, a block at endpoint 3 and an rx at host 2 round one crossbar: up to the tx's number of packets,
/// from there to the block's kind, and from there on.
const ROUND_ONE_CROSSBAR: [&str; 3] = [
    r#"{"rfnoc":1,"commands":[{"do":"net","nodes":[{"kind":"xbar","ports":3},{"kind":"host","epid":1},{"kind":"host","epid":2},{"kind":"endpoint","epid":3}],"links":[[0,0,1,0],[0,1,2,0],[0,2,3,0]]},{"do":"block","kind":"tx","out":[1],"packets":"#,
    r#"},{"do":"block","kind":"#,
    r#","in":[3],"out":[3]},{"do":"block","kind":"rx","in":[2]},{"do":"connect","from":[0,0],"to":[1,0]},{"do":"connect","from":[1,0],"to":[2,0]},{"do":"set","block":0,"side":"out","port":0,"property":"rate","value":8},{"do":"set","block":0,"side":"out","port":0,"property":"item","value":4},{"do":"set","block":0,"side":"out","port":0,"property":"spp","value":2},{"do":"commit"},{"do":"run"}]}"#,
];

/// A block's fields, its kind, what the streams to it and from it tell, and what the rx took.
#[derive(Clone, Copy)]
struct BlockRow {
    packets: &'static str,
    block: &'static str,
    kind: &'static str,
    streams: &'static str,
    taken: &'static str,
}

const BLOCKS: [BlockRow; 4] = [
    BlockRow {
        packets: "2",
        block: r#""repeat","n":2"#,
        kind: "repeat",
        streams: "stream 0 1>3 sent 2 delivered 2 acked 2 epochs 1 drained\nstream 1 3>2 sent 4 delivered 4 acked 4 epochs 1 drained\n",
        taken: "rx 2 packets 4 samples 8 first 0 last 3\n",
    },
    BlockRow {
        packets: "3",
        block: r#""replay","n":2"#,
        kind: "replay",
        streams: "stream 0 1>3 sent 3 delivered 3 acked 3 epochs 1 drained\nstream 1 3>2 sent 6 delivered 6 acked 6 epochs 1 drained\n",
        taken: "rx 2 packets 6 samples 12 first 0 last 5\n",
    },
    BlockRow {
        packets: "2",
        block: r#""keep","n":4"#,
        kind: "keep",
        streams: "stream 0 1>3 sent 2 delivered 2 acked 2 epochs 1 drained\nstream 1 3>2 sent 2 delivered 2 acked 2 epochs 1 drained\n",
        taken: "rx 2 packets 2 samples 1 first 0 last 0\n",
    },
    BlockRow {
        packets: "3",
        block: r#""fifo""#,
        kind: "fifo",
        streams: "stream 0 1>3 sent 3 delivered 3 acked 3 epochs 1 drained\nstream 1 3>2 sent 3 delivered 3 acked 3 epochs 1 drained\n",
        taken: "rx 2 packets 3 samples 6 first 0 last 5\n",
    },
];

#[test]
fn a_block_between_two_hosts_gives_what_its_kind_does(rt: HostRuntime) -> Result<(), Fail> {
    for row in BLOCKS {
        let [first, second, third] = ROUND_ONE_CROSSBAR;
        let script = joined(rt.alloc(), &[first, row.packets, second, row.block, third])?;
        let wanted = joined(
            rt.alloc(),
            &[
                "0 net nodes 4 links 3\n1 block 0 tx\n2 block 1 ",
                row.kind,
                "\n3 block 2 rx\n4 connect stream 0\n5 connect stream 1\n6 set\n7 set\n8 set\n9 commit\n10 run streams 2\n",
                row.streams,
                row.taken,
                "done commands 11 refused 0 undrained 0\n",
            ],
        )?;
        let told = run(rt.alloc(), script.as_bytes())?;
        assert_eq!(rt; told.out.kept(), wanted.as_bytes(), "{}", row.kind);
        assert_eq!(rt; told.status, 0, "{}", row.kind);
    }
    Ok(())
}

/// A graph, the report of its script, and the status.
type Graph = (&'static str, &'static str, u8);

const GRAPHS: [Graph; 3] = [
    (
        r#"{"rfnoc":1,"commands":[{"do":"net","nodes":[{"kind":"xbar","ports":3},{"kind":"host","epid":1},{"kind":"host","epid":2},{"kind":"endpoint","epid":3}],"links":[[0,0,1,0],[0,1,2,0],[0,2,3,0]]},{"do":"block","kind":"tx","out":[1],"packets":2},{"do":"block","kind":"keep","n":3,"in":[3],"out":[3]},{"do":"block","kind":"rx","in":[2]},{"do":"connect","from":[0,0],"to":[1,0]},{"do":"connect","from":[1,0],"to":[2,0]},{"do":"set","block":0,"side":"out","port":0,"property":"rate","value":1000000},{"do":"set","block":0,"side":"out","port":0,"property":"item","value":4},{"do":"set","block":0,"side":"out","port":0,"property":"spp","value":2},{"do":"commit"}]}"#,
        "0 net nodes 4 links 3\n1 block 0 tx\n2 block 1 keep\n3 block 2 rx\n4 connect stream 0\n5 connect stream 1\n6 set\n7 set\n8 set\n9 refused NotWhole block 1 1000000\ndone commands 10 refused 1 undrained 0\n",
        1,
    ),
    (
        r#"{"rfnoc":1,"commands":[{"do":"net","nodes":[{"kind":"host","epid":1},{"kind":"host","epid":2}],"links":[[0,0,1,0]]},{"do":"block","kind":"tx","out":[1],"packets":2},{"do":"block","kind":"rx","in":[2]},{"do":"connect","from":[0,0],"to":[1,0]},{"do":"set","block":0,"side":"out","port":0,"property":"rate","value":8},{"do":"set","block":1,"side":"in","port":0,"property":"rate","value":4},{"do":"set","block":0,"side":"out","port":0,"property":"item","value":4},{"do":"set","block":0,"side":"out","port":0,"property":"spp","value":2},{"do":"commit"}]}"#,
        "0 net nodes 2 links 1\n1 block 0 tx\n2 block 1 rx\n3 connect stream 0\n4 set\n5 set\n6 set\n7 set\n8 refused Clash edge 0 rate 4 8\ndone commands 9 refused 1 undrained 0\n",
        1,
    ),
    (
        r#"{"rfnoc":1,"commands":[{"do":"net","nodes":[{"kind":"host","epid":1},{"kind":"host","epid":2}],"links":[[0,0,1,0]]},{"do":"block","kind":"tx","out":[1],"packets":2},{"do":"block","kind":"rx","in":[2]},{"do":"connect","from":[0,0],"to":[1,0]},{"do":"set","block":0,"side":"out","port":0,"property":"rate","value":8},{"do":"set","block":0,"side":"out","port":0,"property":"item","value":4},{"do":"commit"},{"do":"run"}]}"#,
        "0 net nodes 2 links 1\n1 block 0 tx\n2 block 1 rx\n3 connect stream 0\n4 set\n5 set\n6 refused Unsettled block 0 out 0 spp\n7 refused NotCommitted\ndone commands 8 refused 2 undrained 0\n",
        1,
    ),
];

#[test]
fn a_graph_that_does_not_settle_is_refused(rt: HostRuntime) -> Result<(), Fail> {
    for (script, report, status) in GRAPHS {
        let told = run(rt.alloc(), script.as_bytes())?;
        assert_eq!(rt; told.out.kept(), report.as_bytes());
        assert_eq!(rt; told.status, status);
    }
    Ok(())
}

#[test]
fn names_of_hosts_stand_for_their_endpoints(rt: HostRuntime) -> Result<(), Fail> {
    let named = [
        (r#""rfnoc":1"#, r#""rfnoc":2"#),
        (r#""epid":1"#, r#""epid":1,"name":"a""#),
        (r#""epid":2"#, r#""epid":2,"name":"b""#),
        (r#""out":[1]"#, r#""out":["a"]"#),
        (r#""in":[2]"#, r#""in":["b"]"#),
    ];
    let told = run_changed(rt.alloc(), &named)?;
    assert_eq!(rt; told.out.kept(), REPORT.as_bytes());
    assert_eq!(rt; told.status, 0);
    let [version, from, to, out, _] = named;
    let told = run_changed(
        rt.alloc(),
        &[version, from, to, out, (r#""in":[2]"#, r#""in":["c"]"#)],
    )?;
    assert_eq!(rt;
        told.out.kept(),
        b"fault Form command 2 field in why NoName\n".as_slice()
    );
    assert_eq!(rt; told.status, 6);
    let told = run_changed(rt.alloc(), &[from, to])?;
    assert_eq!(rt;
        told.out.kept(),
        b"fault Form command 0 field nodes why Unknown\n".as_slice()
    );
    assert_eq!(rt; told.status, 6);
    Ok(())
}

/// A script with one net of 65 hosts without links.
fn sixty_five_hosts(alloc: Global, head: &str) -> Result<String, AllocError> {
    let mut text = String::from_str(alloc, head)?;
    for epid in 1u32..66 {
        if 1 < epid {
            text.push_str(",")?;
        }
        text.push_str(r#"{"kind":"host","epid":"#)?;
        text.push_str(format!(in alloc; "{epid}")?.as_str())?;
        text.push_str("}")?;
    }
    text.push_str(r#"],"links":[]}]}"#)?;
    Ok(text)
}

#[test]
fn version_2_has_larger_networks(rt: HostRuntime) -> Result<(), Fail> {
    let rows = [
        (
            r#"{"rfnoc":1,"commands":[{"do":"net","nodes":["#,
            "0 refused TooManyNodes 65\ndone commands 1 refused 1 undrained 0\n",
        ),
        (
            r#"{"rfnoc":2,"commands":[{"do":"net","nodes":["#,
            "0 refused Apart 1\ndone commands 1 refused 1 undrained 0\n",
        ),
    ];
    for (head, report) in rows {
        let text = sixty_five_hosts(rt.alloc(), head)?;
        let told = run(rt.alloc(), text.as_bytes())?;
        assert_eq!(rt; told.out.kept(), report.as_bytes());
        assert_eq!(rt; told.status, 1);
    }
    Ok(())
}

/// The script of one stream with 62 crossbars in a line between its hosts.
fn sixty_two_crossbars(alloc: Global) -> Result<String, AllocError> {
    let mut nodes = String::from_str(alloc, r#"[{"kind":"host","epid":1}"#)?;
    let mut links = String::from_str(alloc, "[[0,0,1,0]")?;
    for k in 1u32..63 {
        nodes.push_str(r#",{"kind":"xbar","ports":2}"#)?;
        let next = k.saturating_add(1);
        links.push_str(format!(in alloc; ",[{k},1,{next},0]")?.as_str())?;
    }
    nodes.push_str(r#",{"kind":"host","epid":2}]"#)?;
    links.push_str("]")?;
    let short_nodes = r#"[{"kind":"host","epid":1},{"kind":"xbar","ports":2},
 {"kind":"host","epid":2}]"#;
    let text = SCRIPT.replace(alloc, short_nodes, nodes.as_str())?;
    text.replace(alloc, "[[0,0,1,0],[1,1,2,0]]", links.as_str())
}

#[test]
fn a_stream_crosses_a_line_of_crossbars(rt: HostRuntime) -> Result<(), Fail> {
    let script = sixty_two_crossbars(rt.alloc())?;
    let wanted = REPORT.replace(
        rt.alloc(),
        "0 net nodes 3 links 2",
        "0 net nodes 64 links 63",
    )?;
    let told = run(rt.alloc(), script.as_bytes())?;
    assert_eq!(rt; told.out.kept(), wanted.as_bytes());
    assert_eq!(rt; told.status, 0);
    Ok(())
}

/// A text of a piece that stands many times between two others.
fn repeated(
    alloc: Global,
    head: &str,
    piece: &str,
    times: usize,
    end: &str,
) -> Result<String, AllocError> {
    let mut text = String::from_str(alloc, head)?;
    for _ in 0..times {
        text.push_str(piece)?;
    }
    text.push_str(end)?;
    Ok(text)
}

#[test]
fn texts_past_the_limits_are_faults(rt: HostRuntime) -> Result<(), Fail> {
    let alloc = rt.alloc();
    let rows = [
        (
            repeated(alloc, r#"{"rfnoc":1,"commands":[{}"#, ",{}", 256, "]}")?,
            "fault Form command - field commands why Range\n",
        ),
        (repeated(alloc, "", " ", 1_048_577, "")?, "fault TooLong\n"),
        (repeated(alloc, "", "[", 1000, "")?, "fault Syntax\n"),
    ];
    for (text, line) in rows {
        let told = run(alloc, text.as_bytes())?;
        assert_eq!(rt; told.out.kept(), line.as_bytes());
        assert_eq!(rt; told.status, 6);
    }
    let lose = repeated(
        alloc,
        r#""do":"run","lose":[["data",0,0]"#,
        r#",["data",0,0]"#,
        64,
        "]",
    )?;
    let text = SCRIPT.replace(alloc, r#""do":"run""#, lose.as_str())?;
    let told = run(alloc, text.as_bytes())?;
    assert_eq!(rt;
        told.out.kept(),
        b"fault Form command 8 field lose why Range\n".as_slice()
    );
    assert_eq!(rt; told.status, 6);
    Ok(())
}

/// The report of the generated script of 1,000 packets.
const GENERATED: &str =
    "0 net nodes 9 links 8\n1 block 0 tx\n2 block 1 fifo\n3 block 2 keep\n4 block 3 rx\n5 block 4 tx\n6 block 5 fifo\n7 block 6 keep\n8 block 7 rx\n9 connect stream 0\n10 connect stream 1\n11 connect stream 2\n12 connect stream 3\n13 connect stream 4\n14 connect stream 5\n15 set\n16 set\n17 set\n18 set\n19 set\n20 set\n21 commit\n22 run streams 6\nstream 0 1>3 sent 1000 delivered 1000 acked 1000 epochs 1 drained\nstream 1 3>4 sent 1000 delivered 1000 acked 1000 epochs 1 drained\nstream 2 4>2 sent 1000 delivered 1000 acked 1000 epochs 1 drained\nstream 3 5>7 sent 1000 delivered 1000 acked 1000 epochs 1 drained\nstream 4 7>8 sent 1000 delivered 1000 acked 1000 epochs 1 drained\nstream 5 8>6 sent 1000 delivered 1000 acked 1000 epochs 1 drained\nrx 3 packets 1000 samples 182000 first 0 last 363998\nrx 7 packets 1000 samples 182000 first 0 last 363998\ndone commands 23 refused 0 undrained 0\n";

#[test]
fn the_generated_script_is_written_as_it_is_performed(rt: HostRuntime) -> Result<(), Fail> {
    let text = run_words(rt.alloc(), &["gen", "1000"])?;
    assert_eq!(rt; text.status, 0);
    assert_eq!(rt; text.books.list.len(), 0);
    let read = run(rt.alloc(), text.out.kept())?;
    assert_eq!(rt; read.status, 0);
    assert_eq!(rt; read.out.kept(), GENERATED.as_bytes());
    let performed = run_words(rt.alloc(), &["gen", "1000", "--run"])?;
    assert_eq!(rt; performed.status, 0);
    assert_eq!(rt; performed.out.kept(), GENERATED.as_bytes());
    Ok(())
}
