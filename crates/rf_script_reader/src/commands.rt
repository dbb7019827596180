//! The commands of a script, one after another.
ghost use Rattle.std.specs.Prelude.{◌≡◌, ◌≢◌, ◌+◌, ◌≤◌, IfOk, IfErr, OnOk, MatchResult, Ok, Err, length, vec_len};
ghost use Rattle.rf_script_parts.specs.Value.{IsFault};
ghost use Rattle.rf_script_reader.specs.Commands.{allowed, verb, unnamed, command_of, more, told, commands, command_items, version_of, script_of};
ghost use Rattle.serde_json.specs.View.{view, items_view};

use crate::block::block;
use crate::connect::{commit, connect, set};
use crate::control::{control, discover, route, unload};
use crate::run::{duplex, run, twin};
use rf_base::{Bytes, Items};
use rf_script_parts::net::net;
use rf_script_parts::others::only;
use rf_script_parts::scope::{ReadCommand, Scope};
use rf_script_parts::value::{bad, listed, number, required};
use rf_script_parts::wrong::Wrong;
use rf_script_types::{
    Field, RFNOC, Script, ScriptCommand, ScriptCommands, ScriptFault, Verb, Why, command_limit,
};
use serde_json::Value;
use std::alloc::Global;

/// The verb, if the version has it.
fn allowed(version: u8, verb: Option<Verb>) -> Option<Verb>
    ensures { result ≡ allowed version verb }
{
    match verb? {
        Verb::Twin => if version == 2 { Some(Verb::Twin) } else { None },
        Verb::Duplex => if version == 2 {
            Some(Verb::Duplex)
        } else {
            None
        },
        Verb::Net => Some(Verb::Net),
        Verb::Discover => Some(Verb::Discover),
        Verb::Route => Some(Verb::Route),
        Verb::Control => Some(Verb::Control),
        Verb::Unload => Some(Verb::Unload),
        Verb::Block => Some(Verb::Block),
        Verb::Connect => Some(Verb::Connect),
        Verb::Set => Some(Verb::Set),
        Verb::Commit => Some(Verb::Commit),
        Verb::Run => Some(Verb::Run),
    }
}

/// The verb of a command, which is the word of its field `do`.
#[tactic(auto, unfolding(crate::specs::Commands::verb))]
fn verb(version: u8, command: &Value) -> Result<Verb, Wrong>
    ensures { result ≡ verb version (view command.now) }
{
    if !command.is_object() {
        return Err(bad(Field::Whole, Why::WrongType));
    }
    match required(Field::Do, Field::Do, command) {
        Ok(value) => match value.as_str() {
            Some(text) => listed(Field::Do, allowed(version, Verb::of_name(text))),
            None => Err(bad(Field::Do, Why::WrongType)),
        },
        Err(wrong) => Err(wrong),
    }
}

/// What was read of a script so far: the commands, and the names that the next one may use.
#[derive(Debug, Drop)]
pub struct SoFar {
    pub scope: Scope,
    pub list: ScriptCommands,
}

fn unnamed(command: ScriptCommand) -> ReadCommand
    ensures { result ≡ unnamed command }
{
    ReadCommand {
        command,
        names: None,
    }
}

fn command_of(
    alloc: Global,
    scope: &Scope,
    verb: Verb,
    command: &Value,
) -> Result<ReadCommand, Wrong>
    ensures ok { IfOk result (λ made. command_of scope.now (view command.now) verb ≡ Ok made) }
    ensures err { IfErr result
        (λ e. IsFault e → command_of scope.now (view command.now) verb ≡ Err e) }
{
    match verb {
        Verb::Net => net(alloc, scope.version, command),
        Verb::Discover => Ok(unnamed(discover(alloc, scope, command)?)),
        Verb::Route => Ok(unnamed(route(alloc, scope, command)?)),
        Verb::Control => Ok(unnamed(control(alloc, scope, command)?)),
        Verb::Unload => Ok(unnamed(unload(alloc, command)?)),
        Verb::Block => Ok(unnamed(block(alloc, scope, command)?)),
        Verb::Connect => Ok(unnamed(connect(alloc, command)?)),
        Verb::Set => Ok(unnamed(set(alloc, command)?)),
        Verb::Commit => Ok(unnamed(commit(alloc, command)?)),
        Verb::Run => Ok(unnamed(run(alloc, scope.version, command)?)),
        Verb::Twin => Ok(unnamed(twin(alloc, scope.version, command)?)),
        Verb::Duplex => Ok(unnamed(duplex(alloc, scope.version, command)?)),
    }
}

impl SoFar {
    /// Reads one more command.
    #[tactic(auto, unfolding(crate::specs::Commands::more))]
    fn add(&mut self, alloc: Global, command: &Value) -> Result<(), Wrong>
        ensures ok { OnOk result (more self.old (view command.now) ≡ Ok self.new) }
        ensures err { IfErr result (λ e. IsFault e → more self.old (view command.now) ≡ Err e) }
        ensures longer { OnOk result (length self.new.list ≡ length self.old.list + 1) }
    {
        let verb = verb(self.scope.version, command)?;
        let read = command_of(alloc, &self.scope, verb, command)?;
        let ReadCommand { command, names } = read;
        if self.list.push(command).is_err() {
            return Err(Wrong::Memory);
        }
        match names {
            Some(names) => self.scope.names = names,
            None => {}
        }
        Ok(())
    }
}

/// The fault of a script that a command has, or the script itself.
fn told(alloc: Global, command: Option<u32>, wrong: Wrong) -> ScriptFault
    ensures { result ≢ ScriptFault.Memory → result ≡ told command wrong }
{
    match wrong {
        Wrong::At { field, why } => match Vec::from_slice(alloc, field.name().as_bytes()) {
            Ok(field) => ScriptFault::Form {
                command,
                field: Bytes::from_vec(field),
                why,
            },
            Err(_) => ScriptFault::Memory,
        },
        Wrong::Unknown { key } => ScriptFault::Form {
            command,
            field: key,
            why: Why::Unknown,
        },
        Wrong::Memory => ScriptFault::Memory,
    }
}

/// The commands of a list, or the first fault.
#[tactic(auto, unfolding(crate::specs::Commands::commands))]
pub(crate) fn commands(
    alloc: Global,
    version: u8,
    values: &Vec<Value>,
) -> Result<ScriptCommands, ScriptFault>
    requires { vec_len values.now ≤ 1024 }
    ensures ok { IfOk result (λ list. commands version (items_view values.now.items) ≡ Ok list) }
    ensures err { IfErr result
        (λ e. e ≢ ScriptFault.Memory → commands version (items_view values.now.items) ≡ Err e) }
{
    let mut read = SoFar {
        scope: Scope {
            version,
            names: Items::new(alloc),
        },
        list: Items::new(alloc),
    };
    for value in values {
        let number = read.list.len() as u32;
        match read.add(alloc, value) {
            Ok(()) => {}
            Err(wrong) => return Err(told(alloc, Some(number), wrong)),
        }
    }
    Ok(read.list)
}

/// The field `commands`.
#[tactic(auto, using(crate::proofs::Lengths::lengths), unfolding(crate::specs::Commands::command_items))]
fn command_items(version: u8, script: &Value) -> Result<&Vec<Value>, Wrong>
    ensures reads { MatchResult result
        (λ v. command_items version (view script.now) ≡ Ok (items_view v.now.items))
        (λ e. command_items version (view script.now) ≡ Err e) }
    ensures few { IfOk result (λ v. vec_len v.now ≤ 1024) }
{
    match required(Field::Commands, Field::Commands, script) {
        Ok(value) => match value.as_array() {
            Some(values) => if values.len() <= command_limit(version) {
                Ok(values)
            } else {
                Err(bad(Field::Commands, Why::Range))
            },
            None => Err(bad(Field::Commands, Why::WrongType)),
        },
        Err(wrong) => Err(wrong),
    }
}

#[tactic(auto, unfolding(crate::specs::Commands::version_of))]
fn version_of(script: &Value) -> Result<u8, Wrong>
    ensures { result ≡ version_of (view script.now) }
{
    if !script.is_object() {
        return Err(bad(Field::Whole, Why::WrongType));
    }
    let version = number(RFNOC, script)?;
    Ok(version as u8)
}

/// The script that a value stands for, or its first fault.
#[tactic(auto, unfolding(crate::specs::Commands::script_of))]
pub(crate) fn script_of(alloc: Global, script: &Value) -> Result<Script, ScriptFault>
    ensures ok { IfOk result (λ made. script_of (view script.now) ≡ Ok made) }
    ensures err { IfErr result
        (λ e. e ≢ ScriptFault.Memory → script_of (view script.now) ≡ Err e) }
{
    let version = match version_of(script) {
        Ok(version) => version,
        Err(wrong) => return Err(told(alloc, None, wrong)),
    };
    let values = match command_items(version, script) {
        Ok(values) => values,
        Err(wrong) => return Err(told(alloc, None, wrong)),
    };
    match only(alloc, &[Field::Rfnoc, Field::Commands], script) {
        Ok(()) => {
            let commands = commands(alloc, version, values)?;
            Ok(Script { version, commands })
        }
        Err(wrong) => Err(told(alloc, None, wrong)),
    }
}
