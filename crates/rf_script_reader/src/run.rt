//! The commands run, twin and duplex.
ghost use Rattle.std.specs.Prelude.{◌≡◌, IfOk, IfErr, Ok, Err};
ghost use Rattle.rf_script_parts.specs.Value.{IsFault};
ghost use Rattle.rf_script_reader.specs.Run.{run, twin, duplex};
ghost use Rattle.serde_json.specs.View.{view};

use crate::acts::acts;
use rf_script_parts::lose::{Sorts, lose};
use rf_script_parts::others::only;
use rf_script_parts::scope::number_field;
use rf_script_parts::value::{flag, number};
use rf_script_parts::wrong::Wrong;
use rf_script_types::{CUT, Field, HOST, SEED, ScriptCommand};
use serde_json::Value;
use std::alloc::Global;

#[tactic(auto, unfolding(crate::specs::Run::run))]
pub(crate) fn run(alloc: Global, version: u8, command: &Value) -> Result<ScriptCommand, Wrong>
    ensures ok { IfOk result (λ made. run version (view command.now) ≡ Ok made) }
    ensures err { IfErr result (λ e. IsFault e → run version (view command.now) ≡ Err e) }
{
    let seed = number(SEED, command)?;
    let trace = flag(Field::Trace, false, command)?;
    let peak = flag(Field::Peak, false, command)?;
    let lose = lose(alloc, version, Sorts::Stream, command)?;
    only(
        alloc,
        &[
            Field::Do,
            Field::Seed,
            Field::Trace,
            Field::Peak,
            Field::Lose,
        ],
        command,
    )?;
    Ok(ScriptCommand::Run {
        seed,
        trace,
        peak,
        lose,
    })
}

#[tactic(auto, unfolding(crate::specs::Run::twin))]
pub(crate) fn twin(alloc: Global, version: u8, command: &Value) -> Result<ScriptCommand, Wrong>
    ensures ok { IfOk result (λ made. twin version (view command.now) ≡ Ok made) }
    ensures err { IfErr result (λ e. IsFault e → twin version (view command.now) ≡ Err e) }
{
    let cut = number(CUT, command)?;
    let peak = flag(Field::Peak, false, command)?;
    let lose = lose(alloc, version, Sorts::Stream, command)?;
    only(
        alloc,
        &[Field::Do, Field::Cut, Field::Peak, Field::Lose],
        command,
    )?;
    Ok(ScriptCommand::Twin {
        cut: cut as u16,
        peak,
        lose,
    })
}

#[tactic(auto, unfolding(crate::specs::Run::duplex))]
pub(crate) fn duplex(alloc: Global, version: u8, command: &Value) -> Result<ScriptCommand, Wrong>
    ensures ok { IfOk result (λ made. duplex version (view command.now) ≡ Ok made) }
    ensures err { IfErr result (λ e. IsFault e → duplex version (view command.now) ≡ Err e) }
{
    let host = number_field(HOST, command)?;
    let acts = acts(alloc, host, command)?;
    let seed = number(SEED, command)?;
    let peak = flag(Field::Peak, false, command)?;
    let lose = lose(alloc, version, Sorts::Any, command)?;
    only(
        alloc,
        &[
            Field::Do,
            Field::Host,
            Field::Acts,
            Field::Seed,
            Field::Peak,
            Field::Lose,
        ],
        command,
    )?;
    Ok(ScriptCommand::Duplex {
        host,
        acts,
        seed,
        peak,
        lose,
    })
}
