//! The commands of a host: discover, route and control; and unload.
ghost use Rattle.std.specs.Prelude.{◌≡◌, IfOk, IfErr, Ok, Err};
ghost use Rattle.rf_script_parts.specs.Value.{IsFault};
ghost use Rattle.rf_script_reader.specs.Control.{operation_field, words, discover, route, control, unload};
ghost use Rattle.serde_json.specs.View.{view};

use chdr_words::{CtrlOp, Words15};
use rf_script_parts::lose::{Sorts, lose};
use rf_script_parts::others::only;
use rf_script_parts::scope::{Scope, endpoint_field};
use rf_script_parts::value::{bad, find, listed, number, required};
use rf_script_parts::words::{check_words, operation, word_list};
use rf_script_parts::wrong::Wrong;
use rf_script_types::{
    ADDR, ENABLES, Field, HOST, PORT, ROUTE_FROM, SLOT, ScriptCommand, TO, WORD, Why,
};
use serde_json::Value;
use std::alloc::Global;

#[tactic(auto, unfolding(crate::specs::Control::operation_field))]
fn operation_field(command: &Value) -> Result<CtrlOp, Wrong>
    ensures { result ≡ operation_field (view command.now) }
{
    match required(Field::Op, Field::Op, command) {
        Ok(value) => listed(Field::Op, operation(Field::Op, value)?),
        Err(wrong) => Err(wrong),
    }
}

/// The field `words`, no word where it isn't there.
#[tactic(auto, unfolding(crate::specs::Control::words))]
fn words(alloc: Global, command: &Value) -> Result<Words15, Wrong>
    ensures ok { IfOk result (λ list. words (view command.now) ≡ Ok list) }
    ensures err { IfErr result (λ e. IsFault e → words (view command.now) ≡ Err e) }
{
    let Some(value) = find(Field::Words, command) else {
        return Ok(Words15::new());
    };
    match value.as_array() {
        Some(values) => {
            check_words(alloc, Field::Words, values)?;
            word_list(alloc, WORD, values)
        }
        None => Err(bad(Field::Words, Why::WrongType)),
    }
}

#[tactic(auto, unfolding(crate::specs::Control::discover))]
pub(crate) fn discover(
    alloc: Global,
    scope: &Scope,
    command: &Value,
) -> Result<ScriptCommand, Wrong>
    ensures ok { IfOk result (λ made. discover scope.now (view command.now) ≡ Ok made) }
    ensures err { IfErr result (λ e. IsFault e → discover scope.now (view command.now) ≡ Err e) }
{
    let host = endpoint_field(scope, HOST, command)?;
    let lose = lose(alloc, scope.version, Sorts::Plain, command)?;
    only(alloc, &[Field::Do, Field::Host, Field::Lose], command)?;
    Ok(ScriptCommand::Discover { host, lose })
}

#[tactic(auto, unfolding(crate::specs::Control::route))]
pub(crate) fn route(alloc: Global, scope: &Scope, command: &Value) -> Result<ScriptCommand, Wrong>
    ensures ok { IfOk result (λ made. route scope.now (view command.now) ≡ Ok made) }
    ensures err { IfErr result (λ e. IsFault e → route scope.now (view command.now) ≡ Err e) }
{
    let host = endpoint_field(scope, HOST, command)?;
    let from = endpoint_field(scope, ROUTE_FROM, command)?;
    let to = endpoint_field(scope, TO, command)?;
    if to.0 == from.0 {
        return Err(bad(Field::To, Why::Range));
    }
    let lose = lose(alloc, scope.version, Sorts::Plain, command)?;
    only(
        alloc,
        &[Field::Do, Field::Host, Field::From, Field::To, Field::Lose],
        command,
    )?;
    Ok(ScriptCommand::Route {
        host,
        from,
        to,
        lose,
    })
}

#[tactic(auto, unfolding(crate::specs::Control::control))]
pub(crate) fn control(alloc: Global, scope: &Scope, command: &Value) -> Result<ScriptCommand, Wrong>
    ensures ok { IfOk result (λ made. control scope.now (view command.now) ≡ Ok made) }
    ensures err { IfErr result (λ e. IsFault e → control scope.now (view command.now) ≡ Err e) }
{
    let host = endpoint_field(scope, HOST, command)?;
    let to = endpoint_field(scope, TO, command)?;
    let port = number(PORT, command)?;
    let op = operation_field(command)?;
    let addr = number(ADDR, command)?;
    let words = words(alloc, command)?;
    let enables = number(ENABLES, command)?;
    let lose = lose(alloc, scope.version, Sorts::Plain, command)?;
    only(
        alloc,
        &[
            Field::Do,
            Field::Host,
            Field::To,
            Field::Port,
            Field::Op,
            Field::Addr,
            Field::Words,
            Field::Enables,
            Field::Lose,
        ],
        command,
    )?;
    Ok(ScriptCommand::Control {
        host,
        to,
        port: port as u16,
        op,
        addr: addr as u32,
        words,
        enables: enables as u8,
        lose,
    })
}

#[tactic(auto, unfolding(crate::specs::Control::unload))]
pub(crate) fn unload(alloc: Global, command: &Value) -> Result<ScriptCommand, Wrong>
    ensures ok { IfOk result (λ made. unload (view command.now) ≡ Ok made) }
    ensures err { IfErr result (λ e. IsFault e → unload (view command.now) ≡ Err e) }
{
    let port = number(SLOT, command)?;
    only(alloc, &[Field::Do, Field::Port], command)?;
    Ok(ScriptCommand::Unload { port: port as u16 })
}
