use crate::{Book, Books, rfnoc};
use block_registers::Banks;
use chdr_packets::PacketList;
use chdr_words::Bytes;
use rf_base::Items;
use rf_outside::{CountList, MemSink, MemSource};
use std::alloc::{AllocError, Global};
use std::test::Fail;

/// A crossbar between two hosts, and a stream of three packets from one to the other.
pub(crate) const SCRIPT: &str = r#"{"rfnoc":1,"commands":[
{"do":"net","nodes":[{"kind":"host","epid":1},{"kind":"xbar","ports":2},
 {"kind":"host","epid":2}],"links":[[0,0,1,0],[1,1,2,0]]},
{"do":"block","kind":"tx","out":[1],"packets":3},
{"do":"block","kind":"rx","in":[2]},
{"do":"connect","from":[0,0],"to":[1,0]},
{"do":"set","block":0,"side":"out","port":0,"property":"rate","value":1000000},
{"do":"set","block":0,"side":"out","port":0,"property":"item","value":4},
{"do":"set","block":0,"side":"out","port":0,"property":"spp","value":2},
{"do":"commit"},
{"do":"run"}]}"#;

pub(crate) const REPORT: &str =
    "0 net nodes 3 links 2\n1 block 0 tx\n2 block 1 rx\n3 connect stream 0\n4 set\n5 set\n6 set\n7 commit\n8 run streams 1\nstream 0 1>2 sent 3 delivered 3 acked 3 epochs 1 drained\nrx 1 packets 3 samples 6 first 0 last 5\ndone commands 9 refused 0 undrained 0\n";

/// The report of the script's commands before its run.
const SETUP: &str =
    "0 net nodes 3 links 2\n1 block 0 tx\n2 block 1 rx\n3 connect stream 0\n4 set\n5 set\n6 set\n7 commit\n";

/// What a call answered, with what it wrote.
#[derive(Drop)]
pub(crate) struct Told {
    pub(crate) status: u8,
    pub(crate) out: MemSink,
    pub(crate) books: Books,
}

pub(crate) fn bytes_of(alloc: Global, bytes: &[u8]) -> Result<Bytes, AllocError> {
    Ok(Items::from_vec(Vec::from_slice(alloc, bytes)?))
}

pub(crate) fn counts(alloc: Global, counts: &[u64]) -> Result<CountList, AllocError> {
    Ok(Items::from_vec(Vec::from_slice(alloc, counts)?))
}

fn words_of(alloc: Global, words: &[&str]) -> Result<Vec<String>, Fail> {
    let mut list = Vec::new(alloc);
    for word in words {
        list.push(String::from_str(alloc, *word)?)?;
    }
    Ok(list)
}

/// Calls the program with a sink that cuts and fails by lists.
pub(crate) fn call(
    alloc: Global,
    words: &[&str],
    src: MemSource,
    cuts: CountList,
    fails: CountList,
) -> Result<Told, Fail> {
    let mut banks = Banks::new(alloc)?;
    call_over(alloc, words, src, cuts, fails, &mut banks)
}

/// The same over these banks.
pub(crate) fn call_over(
    alloc: Global,
    words: &[&str],
    mut src: MemSource,
    cuts: CountList,
    fails: CountList,
    banks: &mut Banks,
) -> Result<Told, Fail> {
    let words = words_of(alloc, words)?;
    let mut out = MemSink::new(alloc, cuts, fails, 4096)?;
    let mut books = Books {
        list: Items::new(alloc),
    };
    let status = rfnoc(
        alloc,
        words.as_slice(),
        &mut src,
        &mut out,
        banks,
        &mut books,
    );
    Ok(Told { status, out, books })
}

/// Runs these bytes with ample of everything.
pub(crate) fn run(alloc: Global, bytes: &[u8]) -> Result<Told, Fail> {
    let src = MemSource::new(
        bytes_of(alloc, bytes)?,
        Items::new(alloc),
        Items::new(alloc),
    );
    call(
        alloc,
        &["run", "--one"],
        src,
        Items::new(alloc),
        Items::new(alloc),
    )
}

/// Where the script has one text, it has another.
pub(crate) type Change = (&'static str, &'static str);

/// Performs the script with these changes.
pub(crate) fn run_changed(alloc: Global, changes: &[Change]) -> Result<Told, Fail> {
    let mut text = String::from_str(alloc, SCRIPT)?;
    for (old, new) in changes {
        text = text.replace(alloc, *old, *new)?;
    }
    run(alloc, text.as_bytes())
}

const TEN: Change = (r#""packets":3"#, r#""packets":10"#);

const SIX: Change = (r#""packets":3"#, r#""packets":6"#);

const FOUR_SAMPLES: Change = (r#""spp","value":2"#, r#""spp","value":4"#);

const TO_RX: &str = r#""to":[1,0]"#;

const SMALL_FLOW: Change = (TO_RX, r#""to":[1,0],"cap":[64,4],"freq":[24,1],"max":24"#);

const AND_PEAK: Change = (r#""do":"run""#, r#""do":"run","peak":true"#);

const OFF: Change = (TO_RX, r#""to":[1,0],"policy":"off""#);

const AUTO: Change = (TO_RX, r#""to":[1,0],"policy":"auto""#);

const THIRD_IS_LOST: Change = (r#""do":"run""#, r#""do":"run","lose":[["data",0,2]]"#);

const LAST_IS_LOST: Change = (r#""do":"run""#, r#""do":"run","lose":[["data",0,5]]"#);

/// Changes, the report behind the commands before the run, and the status.
type Row = (&'static [Change], &'static str, u8);

const ROWS: [Row; 8] = [
    (
        &[],
        "8 run streams 1\nstream 0 1>2 sent 3 delivered 3 acked 3 epochs 1 drained\nrx 1 packets 3 samples 6 first 0 last 5\ndone commands 9 refused 0 undrained 0\n",
        0,
    ),
    (
        &[TEN, FOUR_SAMPLES, SMALL_FLOW, AND_PEAK],
        "8 run streams 1\nstream 0 1>2 sent 10 delivered 10 acked 10 epochs 1 drained\nrx 1 packets 10 samples 40 first 0 last 39\npeak 0 48 2\ndone commands 9 refused 0 undrained 0\n",
        0,
    ),
    (
        &[SIX, OFF, THIRD_IS_LOST],
        "8 run streams 1\nstream 0 1>2 sent 6 delivered 2 acked 2 epochs 1 broken expected 2 got 3\nrx 1 packets 2 samples 4 first 0 last 3\ndone commands 9 refused 0 undrained 1\n",
        1,
    ),
    (
        &[SIX, AUTO, THIRD_IS_LOST],
        "8 run streams 1\nstream 0 1>2 sent 6 delivered 2 acked 6 epochs 2 drained\nrx 1 packets 2 samples 4 first 0 last 3\ndone commands 9 refused 0 undrained 0\n",
        0,
    ),
    (
        &[SIX, OFF, LAST_IS_LOST],
        "8 run streams 1\nstream 0 1>2 sent 6 delivered 5 acked 5 epochs 1 undrained\nrx 1 packets 5 samples 10 first 0 last 9\ndone commands 9 refused 0 undrained 1\n",
        1,
    ),
    (
        &[
            SIX,
            AUTO,
            (r#""do":"run""#, r#""do":"run","lose":[["command",0,0]]"#),
        ],
        "8 run streams 1\nstream 0 1>2 sent 6 delivered 6 acked 6 epochs 1 drained\nrx 1 packets 6 samples 12 first 0 last 11\ndone commands 9 refused 0 undrained 0\n",
        0,
    ),
    (
        &[
            SIX,
            AUTO,
            (r#""do":"run""#, r#""do":"run","lose":[["status",0,1]]"#),
        ],
        "8 run streams 1\nstream 0 1>2 sent 6 delivered 6 acked 6 epochs 1 drained\nrx 1 packets 6 samples 12 first 0 last 11\ndone commands 9 refused 0 undrained 0\n",
        0,
    ),
    (
        &[FOUR_SAMPLES, (TO_RX, r#""to":[1,0],"max":16"#)],
        "8 refused TooBig 0\ndone commands 9 refused 1 undrained 0\n",
        1,
    ),
];

/// The report of the commands before the run, and this.
fn behind_setup(alloc: Global, text: &str) -> Result<String, AllocError> {
    let mut whole = String::from_str(alloc, SETUP)?;
    whole.push_str(text)?;
    Ok(whole)
}

#[test]
fn scripts_are_performed_and_reported(rt: HostRuntime) -> Result<(), Fail> {
    for (number, (changes, report, status)) in ROWS.iter().enumerate() {
        let told = run_changed(rt.alloc(), changes)?;
        let wanted = behind_setup(rt.alloc(), report)?;
        assert_eq!(rt; told.out.kept(), wanted.as_bytes(), "{number}");
        assert_eq!(rt; told.status, *status, "{number}");
    }
    Ok(())
}

/// The events of the script's run.
const EVENTS: &str =
    "Command 0 INIT\nHop 0\nHop 4\nReport 0\nHop 7\nHop 3\nEnter 0\nEnter 0\nEnter 0\nHop 0\nHop 0\nHop 0\nHop 4\nSeen 0 1\nHop 4\nSeen 0 2\nHop 4\nSeen 0 3\nCommand 0 PING\nHop 0\nHop 4\nReport 0\nHop 7\nHop 3\n";

/// The report behind the run's events.
const ENDS: &str =
    "stream 0 1>2 sent 3 delivered 3 acked 3 epochs 1 drained\nrx 1 packets 3 samples 6 first 0 last 5\ndone commands 9 refused 0 undrained 0\n";

#[test]
fn a_trace_has_a_line_for_each_event(rt: HostRuntime) -> Result<(), Fail> {
    let told = run_changed(
        rt.alloc(),
        &[(r#""do":"run""#, r#""do":"run","trace":true"#)],
    )?;
    let mut wanted = behind_setup(rt.alloc(), "8 run streams 1\n")?;
    for event in EVENTS.lines() {
        wanted.push_str("ev ")?;
        wanted.push_str(event)?;
        wanted.push_str("\n")?;
    }
    wanted.push_str(ENDS)?;
    assert_eq!(rt; told.out.kept(), wanted.as_bytes());
    assert_eq!(rt; told.status, 0);
    Ok(())
}

/// Of the first Rx, what it took.
fn taken(books: &Books) -> Option<&PacketList> {
    let run = books.list.as_slice().iter().find_map(|book| match book {
        Book::Run(run) => Some(run),
        _ => None,
    });
    run?.taken.as_slice().first()
}

#[test]
fn packets_are_numbered_from_the_start_of_their_stream(rt: HostRuntime) -> Result<(), Fail> {
    let starts: [(&str, [u16; 3]); 2] = [
        (r#""to":[1,0],"start":65534"#, [65534, 65535, 0]),
        (r#""to":[1,0],"start":1099511627775"#, [65535, 0, 1]),
    ];
    for (start, numbers) in starts {
        let told = run_changed(rt.alloc(), &[(TO_RX, start)])?;
        assert_eq!(rt; told.out.kept(), REPORT.as_bytes());
        match taken(&told.books) {
            Some(packets) => {
                assert_eq!(rt; packets.len(), 3);
                for (packet, number) in packets.as_slice().iter().zip(numbers) {
                    assert_eq!(rt; packet.seq, number);
                }
            }
            None => assert!(rt; false, "the run has a book"),
        }
    }
    Ok(())
}

/// Whole texts, what is written, and the status.
const TEXTS: [(&str, &str, u8); 8] = [
    ("", "fault Syntax\n", 6),
    ("[1", "fault Syntax\n", 6),
    ("null", "fault Form command - field - why Type\n", 6),
    ("{}", "fault Form command - field rfnoc why Missing\n", 6),
    (
        r#"{"rfnoc":1,"commands":[]}"#,
        "done commands 0 refused 0 undrained 0\n",
        0,
    ),
    (
        r#"{"rfnoc":1,"commands":[{"do":"net","nodes":[{"kind":"xbar","ports":2},{"kind":"xbar","ports":2},{"kind":"xbar","ports":2}],"links":[[0,0,1,0],[1,1,2,0],[2,1,0,1]]},{"do":"commit"}]}"#,
        "0 refused Cycle 2\n1 refused NoNet\ndone commands 2 refused 2 undrained 0\n",
        1,
    ),
    (
        r#"{"rfnoc":1,"commands":[{"do":"unload","port":3},{"do":"run"}]}"#,
        "0 refused NotLoaded 3\n1 refused NoNet\ndone commands 2 refused 2 undrained 0\n",
        1,
    ),
    (
        r#"{"rfnoc":1,"commands":[{"do":"run","a\u0001b":1}]}"#,
        "fault Form command 0 field a?b why Unknown\n",
        6,
    ),
];

#[test]
fn whole_texts_are_told(rt: HostRuntime) -> Result<(), Fail> {
    for (text, output, status) in TEXTS {
        let told = run(rt.alloc(), text.as_bytes())?;
        assert_eq!(rt; told.out.kept(), output.as_bytes(), "{text}");
        assert_eq!(rt; told.status, status, "{text}");
        if status == 6 {
            assert_eq!(rt; told.books.list.len(), 0);
        }
    }
    Ok(())
}

#[test]
fn a_flow_that_does_not_fit_is_a_fault(rt: HostRuntime) -> Result<(), Fail> {
    let told = run_changed(
        rt.alloc(),
        &[(TO_RX, r#""to":[1,0],"cap":[64,4],"freq":[64,1],"max":24"#)],
    )?;
    assert_eq!(rt; told.status, 6);
    assert_eq!(rt;
        told.out.kept(),
        b"fault Form command 3 field freq why Flow\n".as_slice()
    );
    Ok(())
}

/// Calls a form that reads nothing.
pub(crate) fn run_words(alloc: Global, words: &[&str]) -> Result<Told, Fail> {
    let src = MemSource::new(
        bytes_of(alloc, b"unread")?,
        Items::new(alloc),
        Items::new(alloc),
    );
    call(alloc, words, src, Items::new(alloc), Items::new(alloc))
}

#[test]
fn a_script_has_at_most_a_mebibyte(rt: HostRuntime) -> Result<(), Fail> {
    let mut text = vec![in rt.alloc(); b' '; 1_048_576 - SCRIPT.len()]?;
    text.extend_from_slice(SCRIPT.as_bytes())?;
    assert_eq!(rt; run(rt.alloc(), text.as_slice())?.status, 0);
    text.push(b' ')?;
    assert_eq!(rt; run(rt.alloc(), text.as_slice())?.status, 6);
    Ok(())
}

#[test]
fn other_words_are_a_usage_fault(rt: HostRuntime) -> Result<(), Fail> {
    let rows: [&[&str]; 18] = [
        &["gen"],
        &["gen", "0"],
        &["gen", "16385"],
        &["gen", "07"],
        &["gen", "7", "run"],
        &["gen", "--run", "7"],
        &[],
        &[""],
        &["run"],
        &["run", "--two"],
        &["--one", "run"],
        &["run", "--one", ""],
        &["show", "x"],
        &["show", ""],
        &["check", "--one"],
        &["Check"],
        &["check "],
        &["show", "check"],
    ];
    for words in rows {
        let src = MemSource::new(
            bytes_of(rt.alloc(), SCRIPT.as_bytes())?,
            Items::new(rt.alloc()),
            Items::new(rt.alloc()),
        );
        let told = call(
            rt.alloc(),
            words,
            src,
            Items::new(rt.alloc()),
            Items::new(rt.alloc()),
        )?;
        assert_eq!(rt; told.status, 2);
        assert_eq!(rt; told.out.kept().len(), 0);
    }
    Ok(())
}

#[test]
fn a_failing_read_is_told(rt: HostRuntime) -> Result<(), Fail> {
    for fail in 0..12 {
        let cuts = counts(rt.alloc(), &[64; 16])?;
        let fails = counts(rt.alloc(), &[fail])?;
        let src = MemSource::new(bytes_of(rt.alloc(), SCRIPT.as_bytes())?, cuts, fails);
        let told = call(
            rt.alloc(),
            &["run", "--one"],
            src,
            Items::new(rt.alloc()),
            Items::new(rt.alloc()),
        )?;
        let reached = fail <= (SCRIPT.len() as u64 + 63) / 64;
        assert_eq!(rt; told.status, if reached { 3 } else { 0 }, "read {fail}");
        assert_eq!(rt; told.out.kept().is_empty(), reached);
    }
    Ok(())
}

#[test]
fn reads_of_one_byte_change_nothing(rt: HostRuntime) -> Result<(), Fail> {
    let cuts = counts(rt.alloc(), &[1; 1024])?;
    let src = MemSource::new(
        bytes_of(rt.alloc(), SCRIPT.as_bytes())?,
        cuts,
        Items::new(rt.alloc()),
    );
    let told = call(
        rt.alloc(),
        &["run", "--one"],
        src,
        Items::new(rt.alloc()),
        Items::new(rt.alloc()),
    )?;
    assert_eq!(rt; told.status, 0);
    assert_eq!(rt; told.out.kept(), REPORT.as_bytes());
    Ok(())
}

#[test]
fn a_failing_write_leaves_a_prefix_of_the_report(rt: HostRuntime) -> Result<(), Fail> {
    for fail in 0usize..64 {
        let src = MemSource::new(
            bytes_of(rt.alloc(), SCRIPT.as_bytes())?,
            Items::new(rt.alloc()),
            Items::new(rt.alloc()),
        );
        let fails = counts(rt.alloc(), &[fail as u64])?;
        let told = call(
            rt.alloc(),
            &["run", "--one"],
            src,
            counts(rt.alloc(), &[5; 64])?,
            fails,
        )?;
        let written = (fail * 5).min(REPORT.len());
        assert_eq!(rt;
            told.status,
            if written < REPORT.len() { 4 } else { 0 },
            "write {fail}"
        );
        assert_eq!(rt; told.out.kept(), &REPORT.as_bytes()[..written]);
    }
    Ok(())
}
