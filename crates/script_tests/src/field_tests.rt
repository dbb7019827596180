//! Each field of each command at its ends and outside them.
use crate::rf_script_tests::told_of;
use std::alloc::Global;
use std::test::Fail;

/// Each field of each command: what is said if it is left out, and values for it, of which the lowest
/// and the highest are good, those below and above are out of range, and the last has another type. A
/// value takes the place of `@`; `-` is no value.
const FIELDS: &str = r#"net | do | @ | Missing | "net" | "net" | - | "Net" | 1
net | nodes | [{"kind":"xbar","ports":@}] | Missing | 1 | 32 | 0 | 33 | "1"
net | nodes | [{"kind":"host","epid":@}] | Missing | 1 | 65535 | 0 | 65536 | true
net | nodes | [{"kind":"endpoint","epid":@}] | Missing | 1 | 65535 | 0 | 65536 | [1]
net | nodes | [{"kind":"endpoint","epid":1,"bank":@}] | Missing | 0 | 15 | - | 16 | null
net | nodes | [{"kind":"adapter"},{"kind":@}] | Missing | "adapter" | "adapter" | - | "Adapter" | 0
net | nodes | @ | Missing | [{"kind":"adapter"}] | [{"kind":"adapter"}] | [] | - | {}
net | links | [[@,0,0,0]] | Missing | 0 | 65535 | - | 65536 | "0"
net | links | [[0,@,0,0]] | Missing | 0 | 255 | - | 256 | 0.0
net | links | [[0,0,@,0]] | Missing | 0 | 65535 | - | 65536 | -1
net | links | [[0,0,0,@]] | Missing | 0 | 255 | - | 256 | 1e2
net | links | @ | Missing | [] | [[0,0,0,0]] | - | - | [[0,0,0]]
net | room | @ | ok | 0 | 65535 | - | 65536 | -0
net | routed | @ | ok | false | true | - | - | 1
discover | do | @ | Missing | "discover" | "discover" | - | "" | {}
discover | host | @ | Missing | 1 | 65535 | 0 | 65536 | true
discover | lose | [["request",@]] | ok | 0 | 4294967295 | - | 4294967296 | "0"
discover | lose | [["answer",@]] | ok | 0 | 4294967295 | - | 4294967296 | []
discover | lose | [[@,0]] | ok | "answer" | "request" | "data" | "reply" | 0
route | do | @ | Missing | "route" | "route" | - | "routes" | null
route | host | @ | Missing | 1 | 65535 | 0 | 65536 | null
route | from | @ | Missing | 1 | 65535 | 0 | 65536 | {}
route | to | @ | Missing | 2 | 65535 | 0 | 65536 | 2.0
route | lose | [["request",@]] | ok | 0 | 4294967295 | - | 4294967296 | -0
control | do | @ | Missing | "control" | "control" | - | "contro" | false
control | host | @ | Missing | 1 | 65535 | 0 | 65536 | [1]
control | to | @ | Missing | 1 | 65535 | 0 | 65536 | 1.0
control | port | @ | Missing | 0 | 1023 | - | 1024 | "0"
control | op | @ | Missing | "SLEEP" | "POLL" | "sleep" | "USER10" | 2
control | addr | @ | Missing | 0 | 1048575 | - | 1048576 | 1e1
control | words | [@] | ok | 0 | 4294967295 | - | 4294967296 | "0"
control | enables | @ | ok | 0 | 15 | - | 16 | true
control | lose | [["answer",@]] | ok | 0 | 4294967295 | - | 4294967296 | null
unload | do | @ | Missing | "unload" | "unload" | - | "load" | ["unload"]
unload | port | @ | Missing | 0 | 15 | - | 16 | "0"
tx | do | @ | Missing | "block" | "block" | - | "blocks" | 0
tx | kind | @ | Missing | "tx" | "tx" | - | "TX" | 0
tx | out | [@] | Missing | 1 | 65535 | 0 | 65536 | true
tx | packets | @ | Missing | 1 | 16384 | 0 | 16385 | "1"
tx | time | @ | ok | 0 | 18446744073709551615 | - | - | 18446744073709551616
rx | do | @ | Missing | "block" | "block" | - | "blocks" | 0
rx | kind | @ | Missing | "rx" | "sink" | - | "source" | []
rx | in | [@] | Missing | 1 | 65535 | 0 | 65536 | {}
fifo | do | @ | Missing | "block" | "block" | - | "blocks" | 0
fifo | kind | @ | Missing | "fifo" | "fifo" | - | "lifo" | null
fifo | in | [@] | Missing | 1 | 65535 | 0 | 65536 | true
fifo | out | [@] | Missing | 1 | 65535 | 0 | 65536 | 1.5
split | do | @ | Missing | "block" | "block" | - | "blocks" | 0
split | kind | @ | Missing | "split" | "split" | - | "join" | {}
split | in | [@] | Missing | 1 | 65535 | 0 | 65536 | true
split | out | [@,1] | Missing | 1 | 65535 | 0 | 65536 | -1
split | out | [1,@] | Missing | 1 | 65535 | 0 | 65536 | null
keep | do | @ | Missing | "block" | "block" | - | "blocks" | 0
keep | kind | @ | Missing | "keep" | "keep" | - | "kept" | true
keep | n | @ | Missing | 1 | 1024 | 0 | 1025 | "2"
keep | in | [@] | Missing | 1 | 65535 | 0 | 65536 | true
keep | out | [@] | Missing | 1 | 65535 | 0 | 65536 | true
repeat | do | @ | Missing | "block" | "block" | - | "blocks" | 0
repeat | kind | @ | Missing | "repeat" | "replay" | - | "play" | 1
repeat | n | @ | Missing | 1 | 16 | 0 | 17 | 1.0
repeat | in | [@] | Missing | 1 | 65535 | 0 | 65536 | true
repeat | out | [@] | Missing | 1 | 65535 | 0 | 65536 | true
switch | do | @ | Missing | "block" | "block" | - | "blocks" | 0
switch | kind | @ | Missing | "switch" | "switch" | - | "switches" | 1
switch | n | @ | Missing | 0 | 1 | - | 2 | false
switch | in | [@,1] | Missing | 1 | 65535 | 0 | 65536 | true
switch | in | [1,@] | Missing | 1 | 65535 | 0 | 65536 | true
switch | out | [@] | Missing | 1 | 65535 | 0 | 65536 | true
connect | do | @ | Missing | "connect" | "connect" | - | "join" | 0
connect | from | [@,0] | Missing | 0 | 65535 | - | 65536 | "0"
connect | from | [0,@] | Missing | 0 | 65535 | - | 65536 | null
connect | to | [@,0] | Missing | 0 | 65535 | - | 65536 | -1
connect | to | [0,@] | Missing | 0 | 65535 | - | 65536 | 0.5
connect | cap | [@,32] | ok | 8208 | 1099511627775 | 0 | 1099511627776 | "1"
connect | cap | [65536,@] | ok | 4 | 1024 | 0 | 1025 | true
connect | freq | [@,1] | ok | 1 | 65520 | 0 | 1099511627776 | {}
connect | freq | [8192,@] | ok | 1 | 4 | 0 | 1025 | 1.5
connect | max | @ | ok | 16 | 8192 | 15 | 8193 | "16"
connect | start | @ | ok | 0 | 1099511627775 | - | 1099511627776 | -0
connect | policy | @ | ok | "auto" | "off" | - | "on" | true
rate | do | @ | Missing | "set" | "set" | - | "get" | 0
rate | block | @ | Missing | 0 | 65535 | - | 65536 | "0"
rate | side | @ | Missing | "in" | "out" | - | "up" | 0
rate | port | @ | Missing | 0 | 65535 | - | 65536 | null
rate | property | @ | Missing | "rate" | "rate" | - | "Rate" | 0
rate | value | @ | Missing | 1 | 18446744073709551615 | 0 | - | 18446744073709551616
item | do | @ | Missing | "set" | "set" | - | "get" | 0
item | block | @ | Missing | 0 | 65535 | - | 65536 | "0"
item | side | @ | Missing | "in" | "out" | - | "" | 0
item | port | @ | Missing | 0 | 65535 | - | 65536 | null
item | property | @ | Missing | "item" | "item" | - | "items" | 0
item | value | @ | Missing | 4 | 8 | 3 | 9 | "4"
item | value | @ | Missing | 4 | 8 | 5 | 7 | 4.0
spp | do | @ | Missing | "set" | "set" | - | "get" | 0
spp | block | @ | Missing | 0 | 65535 | - | 65536 | "0"
spp | side | @ | Missing | "in" | "out" | - | "inout" | 0
spp | port | @ | Missing | 0 | 65535 | - | 65536 | null
spp | property | @ | Missing | "spp" | "spp" | - | "sppp" | 0
spp | value | @ | Missing | 1 | 1022 | 0 | 1023 | [1]
commit | do | @ | Missing | "commit" | "commit" | - | "commits" | 0
run | do | @ | Missing | "run" | "run" | - | "ran" | 0
run | seed | @ | ok | 0 | 18446744073709551615 | - | - | 18446744073709551616
run | trace | @ | ok | false | true | - | - | 0
run | peak | @ | ok | false | true | - | - | "true"
run | lose | [["data",@,0]] | ok | 0 | 65535 | - | 65536 | "0"
run | lose | [["status",0,@]] | ok | 0 | 4294967295 | - | 4294967296 | null
run | lose | [["command",@,@]] | ok | 0 | 65535 | - | 4294967296 | 0.0
run | lose | [[@,0,0]] | ok | "data" | "status" | "answer" | "samples" | 0
run | lose | @ | ok | [] | [["data",0,0]] | - | - | {}"#;

/// The same of the commands that only version 2 has.
const LATER_FIELDS: &str = r#"twin | do | @ | Missing | "twin" | "twin" | - | "twins" | 0
twin | cut | @ | Missing | 0 | 65535 | - | 65536 | "0"
twin | peak | @ | ok | false | true | - | - | null
twin | lose | [["status",@,0]] | ok | 0 | 65535 | - | 65536 | true
twin | lose | [[@,0,0]] | ok | "command" | "data" | "request" | "" | []
duplex | do | @ | Missing | "duplex" | "duplex" | - | "simplex" | 0
duplex | host | @ | Missing | 1 | 65535 | 0 | 65536 | "a"
duplex | acts | [["unload",[@,0],1]] | Missing | 0 | 65535 | - | 65536 | "0"
duplex | acts | [["unload",[0,@],1]] | Missing | 0 | 65535 | - | 65536 | null
duplex | acts | [["unload",[0,0],@]] | Missing | 0 | 15 | - | 16 | "0"
duplex | acts | [["move",[0,0],@,7]] | Missing | 0 | 15 | 7 | 16 | true
duplex | acts | [["move",[0,0],7,@]] | Missing | 0 | 15 | 7 | 16 | -0
duplex | acts | [["control",[0,0],@,0,"READ",0,[]]] | Missing | 1 | 65535 | 0 | 65536 | "a"
duplex | acts | [["control",[0,0],1,@,"READ",0,[]]] | Missing | 0 | 1023 | - | 1024 | {}
duplex | acts | [["control",[0,0],1,0,@,0,[]]] | Missing | "SLEEP" | "POLL" | - | "read" | 2
duplex | acts | [["control",[0,0],1,0,"READ",@,[]]] | Missing | 0 | 1048575 | - | 1048576 | []
duplex | acts | [["control",[0,0],1,0,"READ",0,[@]]] | Missing | 0 | 4294967295 | - | 4294967296 | "0"
duplex | acts | [[@,[0,0],1]] | Missing | "unload" | "unload" | "load" | "" | 0
duplex | acts | @ | Missing | [["unload",[0,0],0]] | [["move",[0,0],0,1]] | [] | - | {}
duplex | seed | @ | ok | 0 | 18446744073709551615 | - | - | 1.0
duplex | peak | @ | ok | false | true | - | - | 0
duplex | lose | [["data",@,0]] | ok | 0 | 65535 | - | 65536 | "0"
duplex | lose | [["request",@]] | ok | 0 | 4294967295 | - | 4294967296 | null
duplex | lose | [[@,0]] | ok | "answer" | "request" | "reply" | "" | 0"#;

/// A row of such a table.
#[derive(Clone, Copy)]
struct Row<'a> {
    command: &'a str,
    field: &'a str,
    frame: &'a str,
    left_out: &'a str,
    lowest: &'a str,
    highest: &'a str,
    below: &'a str,
    above: &'a str,
    another: &'a str,
}

fn row_of(line: &str) -> Option<Row<'_>> {
    let mut cells = line.split(" | ");
    Some(Row {
        command: cells.next()?,
        field: cells.next()?,
        frame: cells.next()?,
        left_out: cells.next()?,
        lowest: cells.next()?,
        highest: cells.next()?,
        below: cells.next()?,
        above: cells.next()?,
        another: cells.next()?,
    })
}

/// Writes a field into a command, if there is a value for it.
fn put_field(text: &mut String, name: &str, frame: &str, value: &str) -> Result<(), Fail> {
    if value == "-" {
        return Ok(());
    }
    if text.len() > 1 {
        text.push(',')?;
    }
    text.push('"')?;
    text.push_str(name)?;
    text.push_str("\":")?;
    for (place, part) in frame.split('@').enumerate() {
        if place > 0 {
            text.push_str(value)?;
        }
        text.push_str(part)?;
    }
    Ok(())
}

/// The row's command with the value for its field, and the lowest for each other one.
fn command_with(alloc: Global, table: &str, wanted: &Row<'_>, value: &str) -> Result<String, Fail> {
    let mut text = String::from_str(alloc, "{")?;
    for line in table.lines() {
        let Some(row) = row_of(line) else {
            continue;
        };
        if row.command == wanted.command {
            if row.field == wanted.field {
                put_field(&mut text, row.field, wanted.frame, value)?;
            } else {
                put_field(&mut text, row.field, row.frame, row.lowest)?;
            }
        }
    }
    text.push('}')?;
    Ok(text)
}

/// What is wanted of a command whose field has this fault.
fn line_of(alloc: Global, field: &str, why: &str) -> Result<String, Fail> {
    if why == "ok" {
        return Ok(String::from_str(alloc, "ok")?);
    }
    Ok(format!(in alloc; "fault Form command 0 field {field} why {why}")?)
}

/// The commands of the table's rows of which something else is said than is wanted, and what is said.
fn differing(alloc: Global, table: &str, version: u8) -> Result<String, Fail> {
    let mut wrong = String::new(alloc);
    for line in table.lines() {
        let Some(row) = row_of(line) else {
            wrong.push_str(line)?;
            continue;
        };
        for (value, why) in [
            ("-", row.left_out),
            (row.lowest, "ok"),
            (row.highest, "ok"),
            (row.below, "Range"),
            (row.above, "Range"),
            (row.another, "Type"),
        ] {
            if value == "-" && why == "Range" {
                continue;
            }
            let command = command_with(alloc, table, &row, value)?;
            let found = told_of(alloc, version, command.as_str())?;
            let line = line_of(alloc, row.field, why)?;
            if found.as_str() != line.as_str() {
                wrong.push_str(format!(in alloc; "{command}: {found}\n")?.as_str())?;
            }
        }
    }
    Ok(wrong)
}

#[test]
fn each_field_has_its_range_and_its_type(rt: HostRuntime) -> Result<(), Fail> {
    assert_eq!(rt; differing(rt.alloc(), FIELDS, 1)?.as_str(), "");
    assert_eq!(rt; differing(rt.alloc(), FIELDS, 2)?.as_str(), "");
    assert_eq!(rt; differing(rt.alloc(), LATER_FIELDS, 2)?.as_str(), "");
    Ok(())
}
