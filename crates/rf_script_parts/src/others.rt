//! Keys that are no field.
ghost use Rattle.std.specs.Prelude.{◌≡◌, ◌∷◌, [], option_map, IfOk, IfErr, OnOk, Ok, Err};
ghost use Rattle.rf_script_parts.specs.Value.{IsFault};
ghost use Rattle.rf_script_parts.specs.Others.{names_one, first_other, other_of, only, only_in};
ghost use Rattle.serde_json.specs.View.{view, members_view};

use crate::value::bad;
use crate::wrong::Wrong;
use chdr_words::Bytes;
use rf_script_types::{Field, Why};
use serde_json::{Map, Value};
use std::alloc::Global;

/// Whether the text is the name of one of the fields.
fn names_one(fields: &[Field], text: &str) -> bool
    ensures { result ≡ names_one fields.now text.now }
{
    for field in fields {
        if text == field.name() {
            return true;
        }
    }
    false
}

/// The first key, in the order of bytes, that names none of the fields.
fn first_other<'a>(fields: &[Field], members: &'a Map<String, Value>) -> Option<&'a str>
    ensures { option_map (λ s. s.now) result
        ≡ first_other fields.now (members_view members.now.entries) }
{
    for (key, _) in members.iter() {
        if !names_one(fields, key.as_str()) {
            return Some(key.as_str());
        }
    }
    None
}

fn other_of<'a>(fields: &[Field], object: &'a Value) -> Option<&'a str>
    ensures { option_map (λ s. s.now) result ≡ other_of fields.now (view object.now) }
{
    match object.as_object() {
        Some(members) => first_other(fields, members),
        None => None,
    }
}

/// That an object has no key but these; the fault names the key.
#[tactic(auto, unfolding(crate::specs::Others::only))]
pub fn only(alloc: Global, fields: &[Field], object: &Value) -> Result<(), Wrong>
    ensures ok { OnOk result (only fields.now (view object.now) ≡ Ok tt) }
    ensures err { IfErr result (λ e. IsFault e → only fields.now (view object.now) ≡ Err e) }
{
    match other_of(fields, object) {
        Some(key) => Err(unknown(alloc, key)),
        None => Ok(()),
    }
}

fn unknown(alloc: Global, key: &str) -> Wrong
    ensures { IsFault result → result ≡ Wrong.Unknown key.now }
{
    match Vec::from_slice(alloc, key.as_bytes()) {
        Ok(bytes) => Wrong::Unknown {
            key: Bytes::from_vec(bytes),
        },
        Err(_) => Wrong::Memory,
    }
}

/// That an entry of a list has no key but these; the fault names the list.
#[tactic(auto, unfolding(crate::specs::Others::only_in))]
pub fn only_in(told: Field, fields: &[Field], object: &Value) -> Result<(), Wrong>
    ensures { result ≡ only_in told fields.now (view object.now) }
{
    match other_of(fields, object) {
        Some(_) => Err(bad(told, Why::Unknown)),
        None => Ok(()),
    }
}
