use rf_script::{SCRIPT_LIMIT, encode_script, gen_script, read_script};
use std::alloc::Global;
use std::test::Fail;

/// A script with a crossbar between its hosts, with no more than it has to say.
const SHORTEST: &str = "{\"rfnoc\":1,\"commands\":[
{\"do\":\"net\",\"nodes\":[{\"kind\":\"host\",\"epid\":1},{\"kind\":\"xbar\",\"ports\":2},{\"kind\":\"host\",\"epid\":2}],\"links\":[[0,0,1,0],[1,1,2,0]]},
{\"do\":\"block\",\"kind\":\"tx\",\"out\":[1],\"packets\":3},
{\"do\":\"block\",\"kind\":\"rx\",\"in\":[2]},
{\"do\":\"connect\",\"from\":[0,0],\"to\":[1,0]},
{\"do\":\"set\",\"block\":0,\"side\":\"out\",\"port\":0,\"property\":\"rate\",\"value\":1000000},
{\"do\":\"set\",\"block\":0,\"side\":\"out\",\"port\":0,\"property\":\"item\",\"value\":4},
{\"do\":\"set\",\"block\":0,\"side\":\"out\",\"port\":0,\"property\":\"spp\",\"value\":2},
{\"do\":\"commit\"},
{\"do\":\"run\"}]}";

/// Its canonical text.
const CANONICAL: &str =
    "{\"commands\":[{\"do\":\"net\",\"links\":[[0,0,1,0],[1,1,2,0]],\"nodes\":[{\"epid\":1,\"kind\":\"host\"},{\"kind\":\"xbar\",\"ports\":2},{\"epid\":2,\"kind\":\"host\"}],\"room\":4,\"routed\":true},{\"do\":\"block\",\"kind\":\"tx\",\"out\":[1],\"packets\":3},{\"do\":\"block\",\"in\":[2],\"kind\":\"rx\"},{\"cap\":[65536,32],\"do\":\"connect\",\"freq\":[8192,4],\"from\":[0,0],\"max\":8192,\"policy\":\"auto\",\"start\":0,\"to\":[1,0]},{\"block\":0,\"do\":\"set\",\"port\":0,\"property\":\"rate\",\"side\":\"out\",\"value\":1000000},{\"block\":0,\"do\":\"set\",\"port\":0,\"property\":\"item\",\"side\":\"out\",\"value\":4},{\"block\":0,\"do\":\"set\",\"port\":0,\"property\":\"spp\",\"side\":\"out\",\"value\":2},{\"do\":\"commit\"},{\"do\":\"run\",\"lose\":[],\"peak\":false,\"seed\":0,\"trace\":false}],\"rfnoc\":1}";

const NAMED: &str = "{\"rfnoc\":2,\"commands\":[
{\"do\":\"net\",\"nodes\":[{\"kind\":\"host\",\"epid\":7,\"name\":\"a\"},{\"kind\":\"host\",\"epid\":9,\"name\":\"b\"}],\"links\":[[0,0,1,0]]},
{\"do\":\"block\",\"kind\":\"tx\",\"out\":[\"a\"],\"packets\":3},
{\"do\":\"discover\",\"host\":\"b\"}]}";

const NUMBERED: &str = "{\"rfnoc\":2,\"commands\":[
{\"do\":\"net\",\"nodes\":[{\"kind\":\"host\",\"epid\":7},{\"kind\":\"host\",\"epid\":9}],\"links\":[[0,0,1,0]]},
{\"do\":\"block\",\"kind\":\"tx\",\"out\":[7],\"packets\":3},
{\"do\":\"discover\",\"host\":9}]}";

/// What is said of the bytes: the fault, or that they are a script.
pub(crate) fn told(alloc: Global, bytes: &[u8]) -> Result<String, Fail> {
    match read_script(alloc, bytes) {
        Ok(_) => Ok(String::from_str(alloc, "ok")?),
        Err(fault) => Ok(format!(in alloc; "{fault}")?),
    }
}

/// What is said of a script whose commands are these.
pub(crate) fn told_of(alloc: Global, version: u8, commands: &str) -> Result<String, Fail> {
    let text = format!(in alloc; "{{\"rfnoc\":{version},\"commands\":[{commands}]}}")?;
    told(alloc, text.as_bytes())
}

/// The item `count` times, with commas between.
pub(crate) fn listed(alloc: Global, item: &str, count: u32) -> Result<String, Fail> {
    let mut text = String::from_str(alloc, item)?;
    for _ in 1..count {
        text.push(',')?;
        text.push_str(item)?;
    }
    Ok(text)
}

#[test]
fn a_whole_script_is_read(rt: HostRuntime) -> Result<(), Fail> {
    let script = read_script(rt.alloc(), SHORTEST.as_bytes())?;
    assert_eq!(rt; script.version, 1);
    assert_eq!(rt; script.commands.len(), 9);
    Ok(())
}

#[test]
fn a_script_is_written_as_its_canonical_text(rt: HostRuntime) -> Result<(), Fail> {
    let script = read_script(rt.alloc(), SHORTEST.as_bytes())?;
    let text = encode_script(rt.alloc(), &script)?;
    assert_eq!(rt; text.as_slice(), CANONICAL.as_bytes());
    Ok(())
}

#[test]
fn a_canonical_text_is_the_same_script(rt: HostRuntime) -> Result<(), Fail> {
    let script = read_script(rt.alloc(), SHORTEST.as_bytes())?;
    let back = read_script(rt.alloc(), CANONICAL.as_bytes())?;
    assert!(rt; back == script);
    Ok(())
}

#[test]
fn a_generated_script_is_written_with_its_23_commands(rt: HostRuntime) -> Result<(), Fail> {
    let script = gen_script(rt.alloc(), 2)?;
    let text = encode_script(rt.alloc(), &script)?;
    let back = read_script(rt.alloc(), text.as_slice())?;
    assert_eq!(rt; back.commands.len(), 23);
    assert!(rt; back == script);
    Ok(())
}

#[test]
fn a_name_stands_for_the_epid_of_its_node(rt: HostRuntime) -> Result<(), Fail> {
    let named = read_script(rt.alloc(), NAMED.as_bytes())?;
    let numbered = read_script(rt.alloc(), NUMBERED.as_bytes())?;
    assert!(rt; named == numbered);
    Ok(())
}

#[test]
fn a_long_or_deep_text_is_no_script(rt: HostRuntime) -> Result<(), Fail> {
    let blank = vec![in rt.alloc(); b' '; SCRIPT_LIMIT + 1]?;
    assert_eq!(rt;
        told(rt.alloc(), blank.as_slice())?.as_str(),
        "fault TooLong"
    );
    let mut deep = vec![in rt.alloc(); b'['; 1000]?;
    for _ in 0..1000 {
        deep.push(b']')?;
    }
    assert_eq!(rt; told(rt.alloc(), deep.as_slice())?.as_str(), "fault Syntax");
    Ok(())
}
