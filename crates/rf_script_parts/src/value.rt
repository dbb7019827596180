//! What a JSON value is, and the fault where it isn't what is wanted.
ghost use Rattle.std.specs.Prelude.{◌≡◌, ◌≤◌, option_map, MatchResult, IfOk, IfSome, Ok, Err};
ghost use Rattle.rf_script_parts.specs.Value.{find, bad, typed, listed, required, whole, ranged, number, optional, flag, has_items, sized, element};
ghost use Rattle.serde_json.specs.View.{view, items_view};

use crate::wrong::Wrong;
use rf_script_types::{Field, Number, Why};
use serde_json::Value;

/// The fault that the field has.
pub fn bad(field: Field, why: Why) -> Wrong
    ensures { result ≡ bad field why }
{
    Wrong::At { field, why }
}

/// What was found, which another type doesn't have.
pub fn typed<T>(told: Field, found: Option<T>) -> Result<T, Wrong>
    ensures { result ≡ typed told found }
{
    match found {
        Some(found) => Ok(found),
        None => Err(bad(told, Why::WrongType)),
    }
}

/// What was found, which a word that isn't listed doesn't have.
pub fn listed<T>(told: Field, found: Option<T>) -> Result<T, Wrong>
    ensures { result ≡ listed told found }
{
    match found {
        Some(found) => Ok(found),
        None => Err(bad(told, Why::Range)),
    }
}

/// The value of the field, where it is there.
pub fn find(field: Field, object: &Value) -> Option<&Value>
    ensures { option_map (λ v. view v.now) result ≡ find field (view object.now) }
{
    object.get(field.name())
}

/// The value of the field, which has to be there.
pub fn required(key: Field, told: Field, object: &Value) -> Result<&Value, Wrong>
    ensures { MatchResult result (λ v. required key told (view object.now) ≡ Ok (view v.now))
        (λ e. required key told (view object.now) ≡ Err e) }
{
    match find(key, object) {
        Some(value) => Ok(value),
        None => Err(bad(told, Why::Missing)),
    }
}

/// The number that a value is.
pub fn whole(told: Field, value: &Value) -> Result<u64, Wrong>
    ensures { result ≡ whole told (view value.now) }
{
    typed(told, value.as_u64())
}

/// The number, where it is in the range of the range.
pub fn ranged(range: Number, n: u64) -> Result<u64, Wrong>
    ensures reads { result ≡ ranged range n }
    ensures low { IfOk result (λ n. range.low ≤ n) }
    ensures high { IfOk result (λ n. n ≤ range.high) }
{
    if range.low <= n && n <= range.high {
        Ok(n)
    } else {
        Err(bad(range.told, Why::Range))
    }
}

/// The number of the range, its default where it isn't there.
#[tactic(auto, unfolding(crate::specs::Value::number))]
pub fn number(range: Number, object: &Value) -> Result<u64, Wrong>
    requires low { IfSome range.default (λ n. range.low ≤ n) }
    requires high { IfSome range.default (λ n. n ≤ range.high) }
    ensures reads { result ≡ number range (view object.now) }
    ensures low { IfOk result (λ n. range.low ≤ n) }
    ensures high { IfOk result (λ n. n ≤ range.high) }
{
    match find(range.key, object) {
        Some(value) => ranged(range, whole(range.told, value)?),
        None => match range.default {
            Some(n) => Ok(n),
            None => Err(bad(range.told, Why::Missing)),
        },
    }
}

/// The number of a field that may be left out.
#[tactic(auto, unfolding(crate::specs::Value::optional))]
pub fn optional(range: Number, object: &Value) -> Result<Option<u64>, Wrong>
    ensures reads { result ≡ optional range (view object.now) }
    ensures high { IfOk result (λ found. IfSome found (λ n. n ≤ range.high)) }
{
    match find(range.key, object) {
        Some(value) => Ok(Some(ranged(range, whole(range.told, value)?)?)),
        None => Ok(None),
    }
}

/// The flag of the field, `default` where it isn't there.
#[tactic(auto, unfolding(crate::specs::Value::flag))]
pub fn flag(field: Field, default: bool, object: &Value) -> Result<bool, Wrong>
    ensures { result ≡ flag field default (view object.now) }
{
    match find(field, object) {
        Some(value) => typed(field, value.as_bool()),
        None => Ok(default),
    }
}

/// Whether it is an array of this number of items.
#[tactic(auto, using(crate::proofs::Lengths::lengths))]
pub fn has_items(count: usize, value: &Value) -> bool
    ensures { result ≡ has_items count (view value.now) }
{
    match value.as_array() {
        Some(items) => items.len() == count,
        None => false,
    }
}

/// That it is an array of this number of items.
#[tactic(auto, unfolding(crate::specs::Value::sized))]
pub fn sized(told: Field, count: usize, value: &Value) -> Result<(), Wrong>
    ensures { result ≡ sized told count (view value.now) }
{
    if has_items(count, value) {
        Ok(())
    } else {
        Err(bad(told, Why::WrongType))
    }
}

/// The number that an item of an array is.
#[tactic(auto, unfolding(crate::specs::Value::element))]
pub fn element(told: Field, place: usize, list: &Value) -> Result<u64, Wrong>
    ensures { result ≡ element told place (view list.now) }
{
    match list.get(place) {
        Some(value) => whole(told, value),
        None => Err(bad(told, Why::WrongType)),
    }
}
