//! Endpoints, which a number names, and in version 2 a text.
ghost use Rattle.std.specs.Prelude.{◌≡◌, ◌≤◌, ◌∷◌, [], IfOk, IfErr, IfSome, Ok, Err};
ghost use Rattle.rf_script_parts.specs.Value.{IsFault};
ghost use Rattle.rf_script_parts.specs.Scope.{epid_named, of_name, numbered, endpoint, endpoint_field, number_field, is_end, check_end, end_at, one_end, two_ends, ends};
ghost use Rattle.serde_json.specs.View.{view};

use crate::value::{bad, ranged, required, sized, whole};
use crate::wrong::Wrong;
use chdr_words::{Bytes, Epid, EpidList};
use rf_base::Items;
use rf_script_types::{Field, Number, ScriptCommand, Why};
use serde_json::Value;
use std::alloc::Global;

/// A node's name, and the EPID that it stands for.
#[derive(Debug, Drop)]
pub struct Named {
    pub name: Bytes,
    pub epid: Epid,
}

pub type Names = Items<Named>;

/// What a command is read under: the version, and the names of the last net command before it.
#[derive(Debug, Drop)]
pub struct Scope {
    pub version: u8,
    pub names: Names,
}

/// A command, and the names that come with it: those of a net's nodes.
#[derive(Debug, Drop)]
pub struct ReadCommand {
    pub command: ScriptCommand,
    pub names: Option<Names>,
}

/// The EPID of the node with this name.
pub fn epid_named(names: &[Named], name: &str) -> Option<Epid>
    ensures { result ≡ epid_named names.now name.now }
{
    for named in names {
        if named.name.as_slice() == name.as_bytes() {
            return Some(named.epid);
        }
    }
    None
}

/// The endpoint that a name stands for.
fn of_name(told: Field, scope: &Scope, name: &str) -> Result<Epid, Wrong>
    ensures { result ≡ of_name told scope.now name.now }
{
    match epid_named(scope.names.as_slice(), name) {
        Some(epid) => Ok(epid),
        None => Err(bad(told, Why::NoName)),
    }
}

/// The endpoint of a number.
pub fn numbered(range: Number, value: &Value) -> Result<Epid, Wrong>
    requires { range.high ≤ 65535 }
    ensures { result ≡ numbered range (view value.now) }
{
    let n = ranged(range, whole(range.told, value)?)?;
    Ok(Epid(n as u16))
}

/// The endpoint that a value names.
#[tactic(auto, unfolding(crate::specs::Scope::endpoint))]
pub fn endpoint(scope: &Scope, range: Number, value: &Value) -> Result<Epid, Wrong>
    requires { range.high ≤ 65535 }
    ensures { result ≡ endpoint scope.now range (view value.now) }
{
    if scope.version == 2 {
        match value.as_str() {
            Some(name) => of_name(range.told, scope, name),
            None => numbered(range, value),
        }
    } else {
        numbered(range, value)
    }
}

/// The endpoint of a field.
#[tactic(auto, unfolding(crate::specs::Scope::endpoint_field))]
pub fn endpoint_field(scope: &Scope, range: Number, command: &Value) -> Result<Epid, Wrong>
    requires { range.high ≤ 65535 }
    ensures { result ≡ endpoint_field scope.now range (view command.now) }
{
    match required(range.key, range.told, command) {
        Ok(value) => endpoint(scope, range, value),
        Err(wrong) => Err(wrong),
    }
}

/// The endpoint of a field that holds no name.
#[tactic(auto, unfolding(crate::specs::Scope::number_field))]
pub fn number_field(range: Number, command: &Value) -> Result<Epid, Wrong>
    requires { range.high ≤ 65535 }
    ensures { result ≡ number_field range (view command.now) }
{
    match required(range.key, range.told, command) {
        Ok(value) => numbered(range, value),
        Err(wrong) => Err(wrong),
    }
}

/// Whether a value is of a type that names an endpoint.
fn is_end(version: u8, value: &Value) -> bool
    ensures { result ≡ is_end version (view value.now) }
{
    value.is_u64() || version == 2 && value.is_string()
}

/// That the item of a list is of a type that names an endpoint.
#[tactic(auto, unfolding(crate::specs::Scope::check_end))]
fn check_end(told: Field, version: u8, place: usize, list: &Value) -> Result<(), Wrong>
    ensures { result ≡ check_end told version place (view list.now) }
{
    match list.get(place) {
        Some(value) => if is_end(version, value) {
            Ok(())
        } else {
            Err(bad(told, Why::WrongType))
        },
        None => Err(bad(told, Why::WrongType)),
    }
}

/// The endpoint that an item of a list names.
#[tactic(auto, unfolding(crate::specs::Scope::end_at))]
fn end_at(scope: &Scope, range: Number, place: usize, list: &Value) -> Result<Epid, Wrong>
    requires { range.high ≤ 65535 }
    ensures { result ≡ end_at scope.now range place (view list.now) }
{
    match list.get(place) {
        Some(value) => endpoint(scope, range, value),
        None => Err(bad(range.told, Why::WrongType)),
    }
}

#[tactic(auto, unfolding(crate::specs::Scope::one_end))]
fn one_end(alloc: Global, scope: &Scope, range: Number, list: &Value) -> Result<EpidList, Wrong>
    requires { range.high ≤ 65535 }
    ensures ok { IfOk result (λ found. one_end scope.now range (view list.now) ≡ Ok found) }
    ensures err { IfErr result (λ e. IsFault e → one_end scope.now range (view list.now) ≡ Err e) }
{
    sized(range.told, 1, list)?;
    let epid = end_at(scope, range, 0, list)?;
    let mut ends = Items::new(alloc);
    match ends.push(epid) {
        Ok(()) => Ok(ends),
        Err(_) => Err(Wrong::Memory),
    }
}

fn pair_of(alloc: Global, first: Epid, second: Epid) -> Result<EpidList, Wrong>
    ensures ok { IfOk result (λ found. found ≡ first ∷ second ∷ []) }
    ensures err { IfErr result (λ e. e ≡ Wrong.Memory) }
{
    let mut ends = Items::new(alloc);
    if ends.push(first).is_err() || ends.push(second).is_err() {
        return Err(Wrong::Memory);
    }
    Ok(ends)
}

#[tactic(auto, unfolding(crate::specs::Scope::two_ends))]
fn two_ends(alloc: Global, scope: &Scope, range: Number, list: &Value) -> Result<EpidList, Wrong>
    requires { range.high ≤ 65535 }
    ensures ok { IfOk result (λ found. two_ends scope.now range (view list.now) ≡ Ok found) }
    ensures err { IfErr result (λ e. IsFault e → two_ends scope.now range (view list.now) ≡ Err e) }
{
    sized(range.told, 2, list)?;
    check_end(range.told, scope.version, 0, list)?;
    check_end(range.told, scope.version, 1, list)?;
    let first = end_at(scope, range, 0, list)?;
    let second = end_at(scope, range, 1, list)?;
    pair_of(alloc, first, second)
}

/// The endpoints of a side of a block that has one or two ports there.
#[tactic(auto, unfolding(crate::specs::Scope::ends))]
pub fn ends(
    alloc: Global,
    scope: &Scope,
    range: Number,
    count: u16,
    block: &Value,
) -> Result<EpidList, Wrong>
    requires { range.high ≤ 65535 }
    ensures ok { IfOk result (λ found. ends scope.now range count (view block.now) ≡ Ok found) }
    ensures err { IfErr result (λ e. IsFault e → ends scope.now range count (view block.now) ≡ Err e) }
{
    if count == 0 {
        return Ok(Items::new(alloc));
    }
    match required(range.key, range.told, block) {
        Ok(list) => if count == 1 {
            one_end(alloc, scope, range, list)
        } else {
            two_ends(alloc, scope, range, list)
        },
        Err(wrong) => Err(wrong),
    }
}
