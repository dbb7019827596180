//! A script as bytes.
ghost use Rattle.std.specs.Prelude.{◌≡◌, Some, IfOk};
ghost use Rattle.std.specs.Str.{IsUtf8};
ghost use Rattle.rf_script_types.specs.CommandText.{script_text};
ghost use Rattle.serde_json.specs.Read.{read};
ghost use Rattle.serde_json.specs.Written.{compact_text};
ghost use Rattle.serde_json.specs.View.{view};

use crate::list::list_value;
use crate::object::Object;
use rf_base::{Bytes, Memory};
use rf_script_types::{Field, Script};
use serde_json::Value;
use std::alloc::Global;

#[tactic(auto, unfolding(rf_script_types::specs::CommandText::script_text))]
fn script_value(alloc: Global, script: &Script) -> Result<Value, Memory>
    ensures { IfOk result (λ v. view v ≡ script_text script.now) }
{
    let mut object = Object::new(alloc);
    object.number(alloc, Field::Rfnoc, script.version as u64)?;
    let commands = list_value(alloc, script.commands.as_slice())?;
    object.put(alloc, Field::Commands, commands)?;
    Ok(object.into_value())
}

/// The canonical text of a script: compact JSON with the keys in the order of their bytes, in which
/// every field with a default is written.
#[tactic(auto, using(crate::proofs::PlainLemmas::no_floats, crate::proofs::PlainLemmas::not_deep))]
pub fn encode_script(alloc: Global, script: &Script) -> Result<Bytes, Memory>
    ensures canonical { IfOk result (λ text. text ≡ compact_text (script_text script.now)) }
    ensures utf8 { IfOk result (λ text. IsUtf8 text) }
    ensures reads { IfOk result (λ text. read text ≡ Some (script_text script.now)) }
{
    let text = script_value(alloc, script)?.to_vec(alloc)?;
    Ok(Bytes::from_vec(text))
}
