//! Which fault comes first, and what JSON makes of a text.
use crate::rf_script_tests::{listed, told, told_of};
use std::test::Fail;

/// Whole texts, and what is said of each.
const TEXTS: &str = r#" => fault Syntax
[] => fault Form command - field - why Type
null => fault Form command - field - why Type
{} => fault Form command - field rfnoc why Missing
{"commands":0} => fault Form command - field rfnoc why Missing
{"rfnoc":true,"commands":0} => fault Form command - field rfnoc why Type
{"rfnoc":-0} => fault Form command - field rfnoc why Type
{"rfnoc":-1} => fault Form command - field rfnoc why Type
{"rfnoc":1.0} => fault Form command - field rfnoc why Type
{"rfnoc":1e0} => fault Form command - field rfnoc why Type
{"rfnoc":18446744073709551615} => fault Form command - field rfnoc why Range
{"rfnoc":18446744073709551616} => fault Form command - field rfnoc why Type
{"rfnoc":1e400} => fault Syntax
{"rfnoc":01} => fault Syntax
{"rfnoc":+1} => fault Syntax
{"rfnoc":0} => fault Form command - field rfnoc why Range
{"rfnoc":3} => fault Form command - field rfnoc why Range
{"rfnoc":1} => fault Form command - field commands why Missing
{"rfnoc":1,"commands":{}} => fault Form command - field commands why Type
{"rfnoc":1,"commands":[]} => ok
{"rfnoc":2,"commands":[]} => ok
{"rfnoc":1,"commands":[],} => fault Syntax
{"rfnoc":3,"rfnoc":1,"commands":0,"commands":[]} => ok
{"rfnoc":1,"rfnoc":3,"commands":[]} => fault Form command - field rfnoc why Range
{"\u0072fno\u0063":1,"comm\u0061nds":[]} => ok
{"rfnoc":1,"commands":[],"":0} => fault Form command - field - why Unknown
{"rfnoc":1,"commands":[0],"x":0,"\u0000\n":0} => fault Form command - field ?? why Unknown
{"rfnoc":1,"commands":[0],"x":0,"Rfnoc":0} => fault Form command - field Rfnoc why Unknown
{"rfnoc":1,"commands":[0],"ü":0,"x":0} => fault Form command - field x why Unknown
{"rfnoc":1,"commands":[0]} => fault Form command 0 field - why Type
{"rfnoc":1,"commands":[{}]} => fault Form command 0 field do why Missing
{"rfnoc":1,"commands":[{"do":"commit"},{"do":"commit","do":"run"},{"do":"ru\u006e","":1}]} => fault Form command 2 field - why Unknown
{"rfnoc":1,"commands":[{"do":"run","seed":-0,"seed":7}]} => ok
{"rfnoc":1,"commands":[{"do":"run","s\u0065ed":-0}]} => fault Form command 0 field seed why Type
{"rfnoc":2,"commands":[{"do":"net","nodes":[{"kind":"host","epid":1,"name":"a\u005f0"}],"links":[]},{"do":"discover","host":"\u0061_0"}]} => ok"#;

/// Commands of a script of the version, and what is said of it.
const COMMANDS: &str = r#"1 => {"do":"twin","cut":0} => 0 field do why Range
1 => {"do":"duplex","host":1,"acts":[["unload",[0,0],1]]} => 0 field do why Range
1 => {"do":"unload","port":16,"a":0} => 0 field port why Range
1 => {"do":"unload","b":0,"a":0,"port":15} => 0 field a why Unknown
1 => {"do":"unload","port":15},{"do":"unload"},{"do":"run","seed":true} => 1 field port why Missing
1 => {"do":"discover","host":"a"} => 0 field host why Type
1 => {"do":"discover","lose":0} => 0 field host why Missing
1 => {"do":"discover","host":1,"lose":[["data",0,0]]} => 0 field lose why Type
1 => {"do":"discover","host":1,"lose":[["request",4294967296],["request"]]} => 0 field lose why Range
1 => {"do":"discover","host":1,"lose":[["reply"]]} => 0 field lose why Type
1 => {"do":"discover","host":1,"lose":[["reply",true]]} => 0 field lose why Type
1 => {"do":"route","host":1,"from":2,"to":2,"lose":0} => 0 field to why Range
1 => {"do":"control","host":1,"to":2,"port":0,"op":"READ","addr":0,"words":[0,1,2,3,4,5,6,7,8,9,10,11,12,13,14]} => ok
1 => {"do":"control","host":1,"to":2,"port":0,"op":"READ","addr":0,"words":[0,1,2,3,4,5,6,7,8,9,10,11,12,13,14,15]} => 0 field words why Range
1 => {"do":"control","host":1,"to":2,"port":0,"op":"READ","addr":0,"words":[4294967296,"0"]} => 0 field words why Type
1 => {"do":"net","nodes":0} => 0 field nodes why Type
1 => {"do":"net","nodes":[{"kind":"xbar"}],"links":0} => 0 field nodes why Missing
1 => {"do":"net","nodes":[{"kind":"xbar","ports":2,"epid":1}],"links":0} => 0 field nodes why Unknown
1 => {"do":"net","nodes":[{"kind":"host","epid":1,"name":"a"}],"links":[]} => 0 field nodes why Unknown
1 => {"do":"net","nodes":[{"kind":"host","epid":0},0],"links":[]} => 0 field nodes why Range
1 => {"do":"net","nodes":[{"kind":"host","epid":1},0],"links":[]} => 0 field nodes why Type
1 => {"do":"net","nodes":[{"kind":"adapter"}],"links":[[0,256,0]]} => 0 field links why Type
1 => {"do":"net","nodes":[{"kind":"adapter"}],"links":[[0,256,0,true]]} => 0 field links why Type
1 => {"do":"net","nodes":[{"kind":"adapter"}],"links":[[0,256,0,0],0]} => 0 field links why Range
1 => {"do":"block","kind":"rx","in":[1],"out":[1]} => 0 field out why Unknown
1 => {"do":"block","kind":"rx","n":1,"in":[1]} => 0 field n why Unknown
1 => {"do":"block","kind":"rx","in":[]} => 0 field in why Type
1 => {"do":"block","kind":"rx","in":[1,1]} => 0 field in why Type
1 => {"do":"block","kind":"switch","n":2,"in":[0],"out":[1]} => 0 field n why Range
1 => {"do":"block","kind":"switch","n":1,"in":[0,true],"out":[1]} => 0 field in why Type
1 => {"do":"block","kind":"switch","n":1,"in":[1,0],"out":[true]} => 0 field in why Range
1 => {"do":"connect","from":[0],"to":[1,0]} => 0 field from why Type
1 => {"do":"connect","from":[65536,true],"to":[1,0]} => 0 field from why Type
1 => {"do":"connect","from":[0,0],"to":[1,0],"cap":[64,4],"freq":[48,4],"max":16} => ok
1 => {"do":"connect","from":[0,0],"to":[1,0],"cap":[64,4],"freq":[49,4],"max":16,"z":0} => 0 field freq why Flow
1 => {"do":"connect","from":[0,0],"to":[1,0],"cap":[64,4],"freq":[48,5],"max":16} => 0 field freq why Flow
1 => {"do":"connect","from":[0,0],"to":[1,0],"freq":[49,33],"policy":"on"} => 0 field policy why Range
1 => {"do":"set","block":0,"side":"up","port":-1,"property":"item","value":5} => 0 field side why Range
1 => {"do":"set","block":0,"side":"in","port":0,"property":"rat","value":5} => 0 field property why Range
1 => {"do":"run","lose":[["data",65536,true]]} => 0 field lose why Type
1 => {"do":"run","lose":[["data",0,0,0]]} => 0 field lose why Type
1 => {"do":"run","lose":[["wrong",0]]} => 0 field lose why Type
1 => {"do":"run","lose":[["wrong",65536,0]]} => 0 field lose why Range
2 => {"do":"net","nodes":[{"kind":"host","epid":1,"name":"0a"}],"links":[]} => 0 field nodes why Name
2 => {"do":"net","nodes":[{"kind":"host","epid":1,"name":""}],"links":[]} => 0 field nodes why Name
2 => {"do":"net","nodes":[{"kind":"host","epid":1,"name":"A"}],"links":[]} => 0 field nodes why Name
2 => {"do":"net","nodes":[{"kind":"host","epid":1,"name":"abcdefghijklmnopqrstuvwxyz_01234"}],"links":[]} => ok
2 => {"do":"net","nodes":[{"kind":"host","epid":1,"name":"abcdefghijklmnopqrstuvwxyz_012345"}],"links":[]} => 0 field nodes why Name
2 => {"do":"net","nodes":[{"kind":"host","epid":1,"name":1}],"links":[]} => 0 field nodes why Type
2 => {"do":"net","nodes":[{"kind":"host","epid":1,"name":"a"},{"kind":"host","epid":2,"name":"a"}],"links":[]} => 0 field nodes why Name
2 => {"do":"net","nodes":[{"kind":"adapter","name":"a"}],"links":[]} => 0 field nodes why Unknown
2 => {"do":"net","nodes":[{"kind":"host","epid":1,"name":"a"},{"kind":"host","epid":2,"name":"b"}],"links":[[0,0,1,0]]},{"do":"block","kind":"tx","out":["a"],"packets":3},{"do":"block","kind":"rx","in":["c"]} => 2 field in why NoName
2 => {"do":"net","nodes":[{"kind":"host","epid":1,"name":"a"}],"links":[]},{"do":"net","nodes":[{"kind":"host","epid":1,"name":"b"}],"links":[]},{"do":"discover","host":"a"} => 2 field host why NoName
2 => {"do":"net","nodes":[{"kind":"host","epid":1,"name":"a"}],"links":[]},{"do":"route","host":"a","from":1,"to":"a"} => 1 field to why Range
2 => {"do":"block","kind":"switch","n":1,"in":["a",true],"out":[1]} => 0 field in why Type
2 => {"do":"block","kind":"switch","n":1,"in":["a",0],"out":[1]} => 0 field in why NoName
2 => {"do":"duplex","host":1,"acts":[[]]} => 0 field acts why Type
2 => {"do":"duplex","host":1,"acts":[["stop"]]} => 0 field acts why Range
2 => {"do":"duplex","host":1,"acts":[["unload",[0,0]]]} => 0 field acts why Type
2 => {"do":"duplex","host":1,"acts":[["unload",[65536,0],true]]} => 0 field acts why Type
2 => {"do":"duplex","host":1,"acts":[["move",[0,0],1,1]]} => 0 field acts why Range
2 => {"do":"duplex","host":1,"acts":[["control",[0,0],1,0,"READ",0,[0,1,2,3,4,5,6,7,8,9,10,11,12,13,14,15]]]} => 0 field acts why Range
2 => {"do":"duplex","host":1,"acts":[["unload",[0,0],1]],"lose":[["data",0]]} => 0 field lose why Type
2 => {"do":"duplex","host":1,"acts":[["unload",[0,0],1]],"lose":[["wrong",0]]} => 0 field lose why Range"#;

#[test]
fn a_text_is_read_as_json_before_it_is_a_script(rt: HostRuntime) -> Result<(), Fail> {
    let mut count = 0u32;
    for line in TEXTS.lines() {
        let Some((text, wanted)) = line.split_once(" => ") else {
            continue;
        };
        count = count.saturating_add(1);
        assert_eq!(rt;
            told(rt.alloc(), text.as_bytes())?.as_str(),
            wanted,
            "{text}"
        );
    }
    assert_eq!(rt; count, 35);
    Ok(())
}

#[test]
fn the_first_fault_is_told(rt: HostRuntime) -> Result<(), Fail> {
    let mut count = 0u32;
    for line in COMMANDS.lines() {
        let Some((version, rest)) = line.split_once(" => ") else {
            continue;
        };
        let Some((commands, wanted)) = rest.split_once(" => ") else {
            continue;
        };
        count = count.saturating_add(1);
        let version = if version == "1" { 1 } else { 2 };
        let found = told_of(rt.alloc(), version, commands)?;
        let line = if wanted == "ok" {
            String::from_str(rt.alloc(), wanted)?
        } else {
            format!(in rt.alloc(); "fault Form command {wanted}")?
        };
        assert_eq!(rt; found.as_str(), line.as_str(), "{commands}");
    }
    assert_eq!(rt; count, 64);
    Ok(())
}

/// Bytes that no text of Rust can hold, and a mark that JSON doesn't have.
#[test]
fn bytes_that_are_no_json_have_no_script(rt: HostRuntime) -> Result<(), Fail> {
    let good = b"{\"rfnoc\":1,\"commands\":[]}";
    let mut marked = vec![in rt.alloc(); 0xefu8, 0xbb, 0xbf]?;
    marked.extend_from_slice(good)?;
    for bytes in [
        marked.as_slice(),
        b"{\"rfnoc\":1,\"commands\":[],\"\xff\":0}",
        b"{\"rfnoc\":1,\"commands\":[{\"do\":\"\xc3\x28\"}]}",
        b"{\"rfnoc\":1,\"commands\":[]}\x00",
    ] {
        assert_eq!(rt; told(rt.alloc(), bytes)?.as_str(), "fault Syntax");
    }
    assert_eq!(rt; told(rt.alloc(), good)?.as_str(), "ok");
    Ok(())
}

#[test]
fn each_version_has_its_limits(rt: HostRuntime) -> Result<(), Fail> {
    for (version, few, many) in [(1, 256, 257), (2, 1024, 1025)] {
        let commands = listed(rt.alloc(), "{\"do\":\"commit\"}", few)?;
        assert_eq!(rt;
            told_of(rt.alloc(), version, commands.as_str())?.as_str(),
            "ok"
        );
        let commands = listed(rt.alloc(), "{}", many)?;
        assert_eq!(rt;
            told_of(rt.alloc(), version, commands.as_str())?.as_str(),
            "fault Form command - field commands why Range"
        );
    }
    for (version, count, wanted) in [
        (1, 64, "ok"),
        (1, 65, "fault Form command 8 field lose why Range"),
        (2, 256, "ok"),
        (2, 257, "fault Form command 8 field lose why Range"),
    ] {
        let before = listed(rt.alloc(), "{\"do\":\"commit\"}", 8)?;
        let lose = listed(rt.alloc(), "[\"data\",0,0]", count)?;
        let commands = format!(in rt.alloc(); "{before},{{\"do\":\"run\",\"lose\":[{lose}]}}")?;
        assert_eq!(rt;
            told_of(rt.alloc(), version, commands.as_str())?.as_str(),
            wanted
        );
    }
    for version in [1, 2] {
        let nodes = listed(rt.alloc(), "{\"kind\":\"host\",\"epid\":1}", 257)?;
        let net = format!(in rt.alloc(); "{{\"do\":\"net\",\"nodes\":[{nodes}],\"links\":[]}}")?;
        assert_eq!(rt; told_of(rt.alloc(), version, net.as_str())?.as_str(), "ok");
    }
    for (count, wanted) in [
        (64, "ok"),
        (65, "fault Form command 0 field acts why Range"),
    ] {
        let acts = listed(rt.alloc(), "[\"unload\",[0,0],1]", count)?;
        let duplex = format!(in rt.alloc(); "{{\"do\":\"duplex\",\"host\":1,\"acts\":[{acts}]}}")?;
        assert_eq!(rt; told_of(rt.alloc(), 2, duplex.as_str())?.as_str(), wanted);
    }
    Ok(())
}
