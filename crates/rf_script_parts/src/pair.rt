//! Two numbers of one field.
ghost use Rattle.std.specs.Prelude.{◌≡◌, ◌≤◌, IfOk, IfSome, Ok, Err};
ghost use Rattle.rf_script_parts.specs.Pair.{pair_of, pair_field};
ghost use Rattle.serde_json.specs.View.{view};

use crate::value::{bad, element, find, ranged, sized};
use crate::wrong::Wrong;
use rf_script_types::{Number, Why};
use serde_json::Value;

/// Two numbers of one field.
#[derive(Clone, Copy, Debug)]
pub struct Pair {
    pub first: u64,
    pub second: u64,
}

/// The two numbers of an array.
#[tactic(auto, unfolding(crate::specs::Pair::pair_of))]
fn pair_of(first: Number, second: Number, value: &Value) -> Result<Pair, Wrong>
    ensures reads { result ≡ pair_of first second (view value.now) }
    ensures first { IfOk result (λ pair. pair.first ≤ first.high) }
    ensures second { IfOk result (λ pair. pair.second ≤ second.high) }
{
    sized(first.told, 2, value)?;
    let a = element(first.told, 0, value)?;
    let b = element(first.told, 1, value)?;
    let a = ranged(first, a)?;
    let b = ranged(second, b)?;
    Ok(Pair {
        first: a,
        second: b,
    })
}

/// The two numbers of a field, their defaults where it isn't there.
#[tactic(auto, unfolding(crate::specs::Pair::pair_field))]
pub fn pair_field(first: Number, second: Number, command: &Value) -> Result<Pair, Wrong>
    requires first { IfSome first.default (λ n. n ≤ first.high) }
    requires second { IfSome second.default (λ n. n ≤ second.high) }
    ensures reads { result ≡ pair_field first second (view command.now) }
    ensures first { IfOk result (λ pair. pair.first ≤ first.high) }
    ensures second { IfOk result (λ pair. pair.second ≤ second.high) }
{
    match find(first.key, command) {
        Some(value) => pair_of(first, second, value),
        None => match (first.default, second.default) {
            (Some(a), Some(b)) => Ok(Pair {
                first: a,
                second: b,
            }),
            (Some(_), None) | (None, Some(_)) | (None, None) => Err(bad(first.told, Why::Missing)),
        },
    }
}
