//! The command net: nodes with their names, and links.
ghost use Rattle.std.specs.Prelude.{◌≡◌, ◌≤◌, [], IfOk, IfSome, IfErr, OnOk, Ok, Err};
ghost use Rattle.rf_script_parts.specs.Value.{IsFault};
ghost use Rattle.rf_script_parts.specs.Net.{is_letter, has_letters, is_name, name_text, node_name, node_word, crossbar, adapter, host, host_keys, with_epid, endpoint_node, endpoint_keys, node, node_list, node_field, link, link_list, link_field, net};
ghost use Rattle.serde_json.specs.View.{view, items_view};

use crate::entries::{Entries, read_entries};
use crate::others::{only, only_in};
use crate::scope::{Named, Names, ReadCommand, epid_named};
use crate::value::{bad, element, find, flag, listed, number, optional, ranged, required, sized};
use crate::wrong::Wrong;
use chdr_words::Epid;
use net_topology::{LinkList, LinkPlan, NodeList, NodePlan};
use rf_base::{Bytes, Items};
use rf_script_types::{
    BANK, Field, LINK_NODE, LINK_PORT, NODE_EPID, NodeWord, PORTS, ROOM, ScriptCommand, Why,
    node_limit,
};
use serde_json::Value;
use std::alloc::Global;

/// Whether a name may have the byte: a letter from a to z, a digit or `_`.
fn is_letter(byte: u8) -> bool
    ensures { result ≡ is_letter byte }
{
    97 <= byte && byte <= 122 || 48 <= byte && byte <= 57 || byte == 95
}

fn has_letters(name: &[u8]) -> bool
    ensures { result ≡ has_letters name.now }
{
    for byte in name {
        if !is_letter(*byte) {
            return false;
        }
    }
    true
}

/// Whether it is 1 to 32 letters, the first of them no digit.
fn is_name(name: &[u8]) -> bool
    ensures { result ≡ is_name name.now }
{
    match name {
        [] => false,
        [first, ..] => name.len() <= 32 && !(48 <= *first && *first <= 57) && has_letters(name),
    }
}

/// The name of a text, which no node before has.
fn name_text(alloc: Global, names: &[Named], text: &str) -> Result<Bytes, Wrong>
    ensures ok { IfOk result (λ name. name_text names.now text.now ≡ Ok name) }
    ensures err { IfErr result (λ e. IsFault e → name_text names.now text.now ≡ Err e) }
{
    if !is_name(text.as_bytes()) || epid_named(names, text).is_some() {
        return Err(bad(Field::Nodes, Why::Name));
    }
    match Vec::from_slice(alloc, text.as_bytes()) {
        Ok(name) => Ok(Bytes::from_vec(name)),
        Err(_) => Err(Wrong::Memory),
    }
}

/// The name of a node, which only version 2 has.
#[tactic(auto, unfolding(crate::specs::Net::node_name))]
fn node_name(
    alloc: Global,
    version: u8,
    names: &[Named],
    entry: &Value,
) -> Result<Option<Bytes>, Wrong>
    ensures ok { IfOk result (λ name. node_name version names.now (view entry.now) ≡ Ok name) }
    ensures err { IfErr result
        (λ e. IsFault e → node_name version names.now (view entry.now) ≡ Err e) }
{
    if version != 2 {
        return Ok(None);
    }
    let Some(value) = find(Field::Name, entry) else {
        return Ok(None);
    };
    match value.as_str() {
        Some(text) => Ok(Some(name_text(alloc, names, text)?)),
        None => Err(bad(Field::Nodes, Why::WrongType)),
    }
}

/// A node, with its name if it has one.
#[derive(Debug, Drop)]
pub struct ReadNode {
    pub plan: NodePlan,
    pub named: Option<Named>,
}

#[tactic(auto, unfolding(crate::specs::Net::node_word))]
fn node_word(entry: &Value) -> Result<NodeWord, Wrong>
    ensures { result ≡ node_word (view entry.now) }
{
    match required(Field::Kind, Field::Nodes, entry) {
        Ok(value) => match value.as_str() {
            Some(text) => listed(Field::Nodes, NodeWord::of_name(text)),
            None => Err(bad(Field::Nodes, Why::WrongType)),
        },
        Err(wrong) => Err(wrong),
    }
}

#[tactic(auto, unfolding(crate::specs::Net::crossbar))]
fn crossbar(entry: &Value) -> Result<ReadNode, Wrong>
    ensures { result ≡ crossbar (view entry.now) }
{
    let ports = number(PORTS, entry)?;
    only_in(Field::Nodes, &[Field::Kind, Field::Ports], entry)?;
    Ok(ReadNode {
        plan: NodePlan::Crossbar { ports: ports as u8 },
        named: None,
    })
}

#[tactic(auto, unfolding(crate::specs::Net::adapter))]
fn adapter(entry: &Value) -> Result<ReadNode, Wrong>
    ensures { result ≡ adapter (view entry.now) }
{
    only_in(Field::Nodes, &[Field::Kind], entry)?;
    Ok(ReadNode {
        plan: NodePlan::Adapter,
        named: None,
    })
}

#[tactic(auto, unfolding(crate::specs::Net::host_keys))]
fn host_keys(version: u8, entry: &Value) -> Result<(), Wrong>
    ensures { result ≡ host_keys version (view entry.now) }
{
    if version == 2 {
        only_in(
            Field::Nodes,
            &[Field::Kind, Field::Epid, Field::Name],
            entry,
        )
    } else {
        only_in(Field::Nodes, &[Field::Kind, Field::Epid], entry)
    }
}

fn with_epid(name: Option<Bytes>, epid: Epid) -> Option<Named>
    ensures { result ≡ with_epid name epid }
{
    match name {
        Some(name) => Some(Named { name, epid }),
        None => None,
    }
}

#[tactic(auto, unfolding(crate::specs::Net::host))]
fn host(alloc: Global, version: u8, names: &[Named], entry: &Value) -> Result<ReadNode, Wrong>
    ensures ok { IfOk result (λ made. host version names.now (view entry.now) ≡ Ok made) }
    ensures err { IfErr result (λ e. IsFault e → host version names.now (view entry.now) ≡ Err e) }
{
    let epid = Epid(number(NODE_EPID, entry)? as u16);
    let name = node_name(alloc, version, names, entry)?;
    host_keys(version, entry)?;
    Ok(ReadNode {
        plan: NodePlan::Host { epid },
        named: with_epid(name, epid),
    })
}

#[tactic(auto, unfolding(crate::specs::Net::endpoint_keys))]
fn endpoint_keys(version: u8, entry: &Value) -> Result<(), Wrong>
    ensures { result ≡ endpoint_keys version (view entry.now) }
{
    if version == 2 {
        only_in(
            Field::Nodes,
            &[Field::Kind, Field::Epid, Field::Bank, Field::Name],
            entry,
        )
    } else {
        only_in(
            Field::Nodes,
            &[Field::Kind, Field::Epid, Field::Bank],
            entry,
        )
    }
}

fn bank_of(number: Option<u64>) -> Option<u16>
    requires { IfSome number (λ n. n ≤ 15) }
    ensures { result ≡ number }
{
    match number {
        Some(n) => Some(n as u16),
        None => None,
    }
}

#[tactic(auto, unfolding(crate::specs::Net::endpoint_node))]
fn endpoint_node(
    alloc: Global,
    version: u8,
    names: &[Named],
    entry: &Value,
) -> Result<ReadNode, Wrong>
    ensures ok { IfOk result (λ made. endpoint_node version names.now (view entry.now) ≡ Ok made) }
    ensures err { IfErr result
        (λ e. IsFault e → endpoint_node version names.now (view entry.now) ≡ Err e) }
{
    let epid = Epid(number(NODE_EPID, entry)? as u16);
    let bank = bank_of(optional(BANK, entry)?);
    let name = node_name(alloc, version, names, entry)?;
    endpoint_keys(version, entry)?;
    Ok(ReadNode {
        plan: NodePlan::Endpoint { epid, bank },
        named: with_epid(name, epid),
    })
}

/// An entry of the list of nodes.
#[tactic(auto, unfolding(crate::specs::Net::node))]
fn node(alloc: Global, version: u8, names: &[Named], entry: &Value) -> Result<ReadNode, Wrong>
    ensures ok { IfOk result (λ made. node version names.now (view entry.now) ≡ Ok made) }
    ensures err { IfErr result (λ e. IsFault e → node version names.now (view entry.now) ≡ Err e) }
{
    if !entry.is_object() {
        return Err(bad(Field::Nodes, Why::WrongType));
    }
    match node_word(entry)? {
        NodeWord::Crossbar => crossbar(entry),
        NodeWord::Adapter => adapter(entry),
        NodeWord::Host => host(alloc, version, names, entry),
        NodeWord::Endpoint => endpoint_node(alloc, version, names, entry),
    }
}

/// The nodes that were read of a list, and their names.
#[derive(Debug, Drop)]
pub struct Nodes {
    pub version: u8,
    pub list: NodeList,
    pub names: Names,
}

impl Entries for Nodes {
    ghost use Rattle.rf_script_parts.specs.Net.{more_nodes};

    ghost step = { more_nodes };

    fn add(&mut self, alloc: Global, entry: &Value) -> Result<(), Wrong> {
        let read = node(alloc, self.version, self.names.as_slice(), entry)?;
        let ReadNode { plan, named } = read;
        if self.list.push(plan).is_err() {
            return Err(Wrong::Memory);
        }
        match named {
            Some(named) => match self.names.push(named) {
                Ok(()) => Ok(()),
                Err(_) => Err(Wrong::Memory),
            },
            None => Ok(()),
        }
    }
}

#[tactic(auto, using(crate::proofs::Lengths::lengths), unfolding(crate::specs::Net::node_list))]
fn node_list(alloc: Global, version: u8, values: &Vec<Value>) -> Result<Nodes, Wrong>
    ensures ok { IfOk result
        (λ made. node_list version (items_view values.now.items) ≡ Ok made) }
    ensures err { IfErr result
        (λ e. IsFault e → node_list version (items_view values.now.items) ≡ Err e) }
{
    if values.is_empty() {
        return Err(bad(Field::Nodes, Why::Range));
    }
    let before = Nodes {
        version,
        list: Items::new(alloc),
        names: Items::new(alloc),
    };
    read_entries(alloc, before, values)
}

/// The field `nodes`.
#[tactic(auto, unfolding(crate::specs::Net::node_field))]
fn node_field(alloc: Global, version: u8, command: &Value) -> Result<Nodes, Wrong>
    ensures ok { IfOk result (λ made. node_field version (view command.now) ≡ Ok made) }
    ensures err { IfErr result (λ e. IsFault e → node_field version (view command.now) ≡ Err e) }
{
    match required(Field::Nodes, Field::Nodes, command) {
        Ok(value) => match value.as_array() {
            Some(values) => node_list(alloc, version, values),
            None => Err(bad(Field::Nodes, Why::WrongType)),
        },
        Err(wrong) => Err(wrong),
    }
}

/// `[a, a_port, b, b_port]`
#[tactic(auto, unfolding(crate::specs::Net::link))]
fn link(entry: &Value) -> Result<LinkPlan, Wrong>
    ensures { result ≡ link (view entry.now) }
{
    sized(Field::Links, 4, entry)?;
    let a = element(Field::Links, 0, entry)?;
    let a_port = element(Field::Links, 1, entry)?;
    let b = element(Field::Links, 2, entry)?;
    let b_port = element(Field::Links, 3, entry)?;
    let a = ranged(LINK_NODE, a)?;
    let a_port = ranged(LINK_PORT, a_port)?;
    let b = ranged(LINK_NODE, b)?;
    let b_port = ranged(LINK_PORT, b_port)?;
    Ok(LinkPlan {
        a: a as u16,
        a_port: a_port as u8,
        b: b as u16,
        b_port: b_port as u8,
    })
}

/// The links that were read of a list.
#[derive(Debug, Drop)]
pub struct LinksSoFar {
    pub list: LinkList,
}

impl Entries for LinksSoFar {
    ghost use Rattle.rf_script_parts.specs.Net.{more_links};

    ghost step = { more_links };

    fn add(&mut self, _alloc: Global, entry: &Value) -> Result<(), Wrong> {
        let link = link(entry)?;
        match self.list.push(link) {
            Ok(()) => Ok(()),
            Err(_) => Err(Wrong::Memory),
        }
    }
}

#[tactic(auto, unfolding(crate::specs::Net::link_list))]
fn link_list(alloc: Global, values: &Vec<Value>) -> Result<LinkList, Wrong>
    ensures ok { IfOk result (λ list. link_list (items_view values.now.items) ≡ Ok list) }
    ensures err { IfErr result
        (λ e. IsFault e → link_list (items_view values.now.items) ≡ Err e) }
{
    let before = LinksSoFar {
        list: Items::new(alloc),
    };
    let all = read_entries(alloc, before, values)?;
    Ok(all.list)
}

/// The field `links`.
#[tactic(auto, unfolding(crate::specs::Net::link_field))]
fn link_field(alloc: Global, command: &Value) -> Result<LinkList, Wrong>
    ensures ok { IfOk result (λ list. link_field (view command.now) ≡ Ok list) }
    ensures err { IfErr result (λ e. IsFault e → link_field (view command.now) ≡ Err e) }
{
    match required(Field::Links, Field::Links, command) {
        Ok(value) => match value.as_array() {
            Some(values) => link_list(alloc, values),
            None => Err(bad(Field::Links, Why::WrongType)),
        },
        Err(wrong) => Err(wrong),
    }
}

#[tactic(auto, unfolding(crate::specs::Net::net))]
pub fn net(alloc: Global, version: u8, command: &Value) -> Result<ReadCommand, Wrong>
    ensures ok { IfOk result (λ made. net version (view command.now) ≡ Ok made) }
    ensures err { IfErr result (λ e. IsFault e → net version (view command.now) ≡ Err e) }
{
    let nodes = node_field(alloc, version, command)?;
    let links = link_field(alloc, command)?;
    let room = number(ROOM, command)?;
    let routed = flag(Field::Routed, true, command)?;
    only(
        alloc,
        &[
            Field::Do,
            Field::Nodes,
            Field::Links,
            Field::Room,
            Field::Routed,
        ],
        command,
    )?;
    Ok(ReadCommand {
        command: ScriptCommand::Net {
            nodes: nodes.list,
            links,
            room: room as u32,
            routed,
            limit: node_limit(version),
        },
        names: Some(nodes.names),
    })
}
