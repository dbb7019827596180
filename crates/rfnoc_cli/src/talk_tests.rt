//! Whole runs of the program: hosts that find nodes, write routes, and read and write registers.
use crate::row_tests::joined;
use crate::tests::{Told, bytes_of, call_over};
use block_registers::{Bank, Banks, PlainBank};
use rf_base::Items;
use rf_outside::MemSource;
use std::alloc::{AllocError, Global};
use std::test::Fail;

/// A host and an endpoint with bank 1 at a crossbar of four ports, whose table is empty.
const NET: &str =
    r#"{"do":"net","nodes":[{"kind":"host","epid":1},{"kind":"xbar","ports":4},{"kind":"endpoint","epid":3,"bank":1}],"links":[[0,0,1,0],[1,2,2,0]],"routed":false}"#;

/// What all nodes of that network are told as.
const ALL_NODES: &str =
    "node 0 endpoint ports 1 epid 1 via -\nnode 1 crossbar ports 4 epid 0 via 0.0\nnode 2 endpoint ports 1 epid 3 via 1.2\n";

/// A bank of 16 words. Its first word tells the port and can't be written, the others are 0.
fn bank_of_port_1(alloc: Global) -> Result<PlainBank, Fail> {
    let mut words = [0u32; 16];
    let mut masks = [u32::MAX; 16];
    words[0] = 0x5246_0001;
    masks[0] = 0;
    Ok(PlainBank::new(
        Items::from_vec(Vec::from_array(alloc, words)?),
        Items::from_vec(Vec::from_array(alloc, masks)?),
    ))
}

/// A script of these commands.
fn script_of(alloc: Global, commands: &[&str]) -> Result<String, AllocError> {
    let mut text = String::from_str(alloc, r#"{"rfnoc":1,"commands":["#)?;
    for (number, command) in commands.iter().enumerate() {
        if number > 0 {
            text.push_str(",")?;
        }
        text.push_str(*command)?;
    }
    text.push_str("]}")?;
    Ok(text)
}

/// Performs these commands over banks.
fn told(alloc: Global, commands: &[&str], banks: &mut Banks) -> Result<Told, Fail> {
    let script = script_of(alloc, commands)?;
    let src = MemSource::new(
        bytes_of(alloc, script.as_bytes())?,
        Items::new(alloc),
        Items::new(alloc),
    );
    call_over(
        alloc,
        &["run", "--one"],
        src,
        Items::new(alloc),
        Items::new(alloc),
        banks,
    )
}

/// Commands, the pieces of their report, and the status.
type Row = (&'static [&'static str], &'static [&'static str], u8);

const DISCOVER: &str = r#"{"do":"discover","host":1}"#;

const FIND_WITHOUT_PORT_1: &str = r#"{"do":"discover","host":1,"lose":[["request",1]]}"#;

const FIND_WITHOUT_PORT_2: &str = r#"{"do":"discover","host":1,"lose":[["request",2]]}"#;

const FIND_WITHOUT_THE_ANSWER_OF_PORT_2: &str =
    r#"{"do":"discover","host":1,"lose":[["answer",2]]}"#;

const FIND_FROM_AN_ENDPOINT: &str = r#"{"do":"discover","host":3}"#;

const LONE_HOST: &str = r#"{"do":"net","nodes":[{"kind":"host","epid":7}],"links":[]}"#;

const FIND_FROM_THE_LONE_HOST: &str = r#"{"do":"discover","host":7}"#;

const ROUTE: &str = r#"{"do":"route","host":1,"from":1,"to":3}"#;

const ROUTE_TO_9: &str = r#"{"do":"route","host":1,"from":1,"to":9}"#;

const ROUTE_FROM_AN_ENDPOINT: &str = r#"{"do":"route","host":3,"from":1,"to":3}"#;

const ROUTE_WITHOUT_ANSWER: &str =
    r#"{"do":"route","host":1,"from":1,"to":3,"lose":[["answer",0]]}"#;

const ROUTE_WITHOUT_WRITE: &str =
    r#"{"do":"route","host":1,"from":1,"to":3,"lose":[["request",0]]}"#;

const WRITE: &str =
    r#"{"do":"control","host":1,"to":3,"port":1,"op":"WRITE","addr":4,"words":[17]}"#;

const READ: &str = r#"{"do":"control","host":1,"to":3,"port":1,"op":"READ","addr":4}"#;

const READ_FIRST: &str = r#"{"do":"control","host":1,"to":3,"port":1,"op":"READ","addr":0}"#;

const WRITE_WITHOUT_ANSWER: &str =
    r#"{"do":"control","host":1,"to":3,"port":1,"op":"WRITE","addr":8,"words":[9],"lose":[["answer",0]]}"#;

const READ_AT_8: &str = r#"{"do":"control","host":1,"to":3,"port":1,"op":"READ","addr":8}"#;

const WRITE_PAST_THE_END: &str =
    r#"{"do":"control","host":1,"to":3,"port":1,"op":"BLOCK_WRITE","addr":60,"words":[1,2]}"#;

const READ_AT_60: &str = r#"{"do":"control","host":1,"to":3,"port":1,"op":"READ","addr":60}"#;

const UNLOAD: &str = r#"{"do":"unload","port":1}"#;

/// What the network and its whole walk are told as.
const FOUND: &str =
    "0 net nodes 3 links 2\n1 discover nodes 3 bare 2 lost 0\nnode 0 endpoint ports 1 epid 1 via -\nnode 1 crossbar ports 4 epid 0 via 0.0\nnode 2 endpoint ports 1 epid 3 via 1.2\n";

const TALKS: [Row; 15] = [
    (
        &[NET, DISCOVER, DISCOVER],
        &[
            "0 net nodes 3 links 2\n1 discover nodes 3 bare 2 lost 0\n",
            ALL_NODES,
            "2 discover nodes 3 bare 2 lost 0\n",
            ALL_NODES,
            "done commands 3 refused 0 undrained 0\n",
        ],
        0,
    ),
    (
        &[NET, FIND_WITHOUT_PORT_1],
        &[
            "0 net nodes 3 links 2\n1 discover nodes 3 bare 1 lost 1\n",
            ALL_NODES,
            "done commands 2 refused 0 undrained 0\n",
        ],
        0,
    ),
    (
        &[NET, FIND_WITHOUT_PORT_2, FIND_WITHOUT_THE_ANSWER_OF_PORT_2],
        &[
            "0 net nodes 3 links 2\n1 discover nodes 2 bare 2 lost 1\n",
            "node 0 endpoint ports 1 epid 1 via -\nnode 1 crossbar ports 4 epid 0 via 0.0\n",
            "2 discover nodes 2 bare 2 lost 1\n",
            "node 0 endpoint ports 1 epid 1 via -\nnode 1 crossbar ports 4 epid 0 via 0.0\n",
            "done commands 3 refused 0 undrained 0\n",
        ],
        0,
    ),
    (
        &[DISCOVER],
        &["0 refused NoNet\ndone commands 1 refused 1 undrained 0\n"],
        1,
    ),
    (
        &[NET, FIND_FROM_AN_ENDPOINT],
        &["0 net nodes 3 links 2\n1 refused NoHost 3\ndone commands 2 refused 1 undrained 0\n"],
        1,
    ),
    (
        &[LONE_HOST, FIND_FROM_THE_LONE_HOST],
        &[
            "0 net nodes 1 links 0\n1 discover nodes 1 bare 1 lost 0\nnode 0 endpoint ports 1 epid 7 via -\ndone commands 2 refused 0 undrained 0\n",
        ],
        0,
    ),
    (
        &[
            NET, DISCOVER, WRITE, ROUTE, WRITE, READ, READ_FIRST, UNLOAD, READ, UNLOAD,
        ],
        &[
            FOUND,
            "2 refused NoRoute 3\n3 route nodes 1\n4 control OKAY\n5 control OKAY 17\n6 control OKAY 1380319233\n7 unload 1\n8 control CMDERR\n9 refused NotLoaded 1\ndone commands 10 refused 2 undrained 0\n",
        ],
        1,
    ),
    (
        &[NET, DISCOVER, ROUTE, WRITE_WITHOUT_ANSWER, READ_AT_8],
        &[
            FOUND,
            "2 route nodes 1\n3 refused NoAck\n4 control OKAY 9\ndone commands 5 refused 1 undrained 0\n",
        ],
        1,
    ),
    (
        &[NET, DISCOVER, ROUTE, ROUTE_TO_9],
        &[
            FOUND,
            "2 route nodes 1\n3 refused Unknown 9\ndone commands 4 refused 1 undrained 0\n",
        ],
        1,
    ),
    (
        &[NET, DISCOVER, ROUTE, WRITE_PAST_THE_END, READ_AT_60],
        &[
            FOUND,
            "2 route nodes 1\n3 control CMDERR\n4 control OKAY 0\ndone commands 5 refused 0 undrained 0\n",
        ],
        0,
    ),
    (
        &[NET, FIND_WITHOUT_PORT_2, ROUTE],
        &[
            "0 net nodes 3 links 2\n1 discover nodes 2 bare 2 lost 1\nnode 0 endpoint ports 1 epid 1 via -\nnode 1 crossbar ports 4 epid 0 via 0.0\n2 refused Unknown 3\ndone commands 3 refused 1 undrained 0\n",
        ],
        1,
    ),
    (
        &[NET, DISCOVER, ROUTE_WITHOUT_ANSWER, WRITE],
        &[
            FOUND,
            "2 refused Lost 1\n3 control OKAY\ndone commands 4 refused 1 undrained 0\n",
        ],
        1,
    ),
    (
        &[NET, DISCOVER, ROUTE_WITHOUT_WRITE, WRITE],
        &[
            FOUND,
            "2 refused Lost 1\n3 refused NoRoute 3\ndone commands 4 refused 2 undrained 0\n",
        ],
        1,
    ),
    (
        &[ROUTE, NET, ROUTE_FROM_AN_ENDPOINT, ROUTE],
        &[
            "0 refused NoNet\n1 net nodes 3 links 2\n2 refused NoHost 3\n3 refused Unknown 1\ndone commands 4 refused 3 undrained 0\n",
        ],
        1,
    ),
    // a new network is one of which nothing was found
    (
        &[NET, DISCOVER, NET, ROUTE],
        &[
            FOUND,
            "2 net nodes 3 links 2\n3 refused Unknown 1\ndone commands 4 refused 1 undrained 0\n",
        ],
        1,
    ),
];

#[test]
fn hosts_find_write_and_read_but_for_what_is_lost(rt: HostRuntime) -> Result<(), Fail> {
    for (number, (commands, report, status)) in TALKS.iter().enumerate() {
        let bank: Bank = Box::new(rt.alloc(), bank_of_port_1(rt.alloc())?)?;
        let mut banks = Banks::new(rt.alloc())?;
        let _before = banks.load(1, bank);
        let told = told(rt.alloc(), commands, &mut banks)?;
        let wanted = joined(rt.alloc(), report)?;
        assert_eq!(rt; told.out.kept(), wanted.as_bytes(), "{number}");
        assert_eq!(rt; told.status, *status, "{number}");
    }
    Ok(())
}
