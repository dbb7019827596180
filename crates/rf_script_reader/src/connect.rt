//! The commands connect, set and commit.
ghost use Rattle.std.specs.Prelude.{◌≡◌, ◌≤◌, None, IfOk, IfErr, Ok, Err};
ghost use Rattle.rf_script_parts.specs.Value.{IsFault};
ghost use Rattle.rf_script_reader.specs.Connect.{policy, valid_flow, port_at, connect, connect_fields, side, property, whole_item, property_value, set, commit};
ghost use Rattle.serde_json.specs.View.{view};

use graph_core::{PortAt, Prop, PropAt, Side};
use rf_script_parts::others::only;
use rf_script_parts::pair::pair_field;
use rf_script_parts::value::{bad, find, listed, number, required};
use rf_script_parts::wrong::Wrong;
use rf_script_types::{
    CAP_BYTES, CAP_PACKETS, FREQ_BYTES, FREQ_PACKETS, FROM_PORT, Field, ITEM, MAX, Number, RATE,
    SET_BLOCK, SET_PORT, SPP, START, ScriptCommand, TO_PORT, Why, policy_of, property_of, side_of,
};
use serde_json::Value;
use std::alloc::Global;
use stream_endpoint::{Flow, Policy};

#[tactic(auto, unfolding(crate::specs::Connect::policy))]
fn policy(command: &Value) -> Result<Policy, Wrong>
    ensures { result ≡ policy (view command.now) }
{
    match find(Field::Policy, command) {
        Some(value) => match value.as_str() {
            Some(text) => listed(Field::Policy, policy_of(text)),
            None => Err(bad(Field::Policy, Why::WrongType)),
        },
        None => Ok(Policy::Auto),
    }
}

/// The port of a field.
#[tactic(auto, unfolding(crate::specs::Connect::port_at))]
fn port_at(number: Number, command: &Value) -> Result<PortAt, Wrong>
    requires high { number.high ≤ 65535 }
    requires default { number.default ≡ None }
    ensures { result ≡ port_at number (view command.now) }
{
    let pair = pair_field(number, number, command)?;
    Ok(PortAt {
        block: pair.first as u16,
        port: pair.second as u16,
    })
}

/// A flow, if its numbers fit each other.
fn valid_flow(flow: Flow) -> Result<Flow, Wrong>
    ensures { result ≡ valid_flow flow }
{
    if flow.valid() {
        Ok(flow)
    } else {
        Err(bad(Field::Freq, Why::Flow))
    }
}

#[tactic(auto, unfolding(crate::specs::Connect::connect))]
pub(crate) fn connect(alloc: Global, command: &Value) -> Result<ScriptCommand, Wrong>
    ensures ok { IfOk result (λ made. connect (view command.now) ≡ Ok made) }
    ensures err { IfErr result (λ e. IsFault e → connect (view command.now) ≡ Err e) }
{
    let from = port_at(FROM_PORT, command)?;
    let to = port_at(TO_PORT, command)?;
    let cap = pair_field(CAP_BYTES, CAP_PACKETS, command)?;
    let freq = pair_field(FREQ_BYTES, FREQ_PACKETS, command)?;
    let max = number(MAX, command)?;
    let start = number(START, command)?;
    let policy = policy(command)?;
    let flow = valid_flow(Flow {
        cap_bytes: cap.first,
        cap_packets: cap.second as u32,
        freq_bytes: freq.first,
        freq_packets: freq.second as u32,
        max: max as u32,
    })?;
    only(alloc, connect_fields(), command)?;
    Ok(ScriptCommand::Connect {
        from,
        to,
        flow,
        start,
        policy,
    })
}

fn connect_fields() -> &'static [Field]
    ensures { result.now ≡ connect_fields }
{
    &[
        Field::Do,
        Field::From,
        Field::To,
        Field::Cap,
        Field::Freq,
        Field::Max,
        Field::Start,
        Field::Policy,
    ]
}

#[tactic(auto, unfolding(crate::specs::Connect::side))]
fn side(command: &Value) -> Result<Side, Wrong>
    ensures { result ≡ side (view command.now) }
{
    match required(Field::Side, Field::Side, command) {
        Ok(value) => match value.as_str() {
            Some(text) => listed(Field::Side, side_of(text)),
            None => Err(bad(Field::Side, Why::WrongType)),
        },
        Err(wrong) => Err(wrong),
    }
}

#[tactic(auto, unfolding(crate::specs::Connect::property))]
fn property(command: &Value) -> Result<Prop, Wrong>
    ensures { result ≡ property (view command.now) }
{
    match required(Field::Property, Field::Property, command) {
        Ok(value) => match value.as_str() {
            Some(text) => listed(Field::Property, property_of(text)),
            None => Err(bad(Field::Property, Why::WrongType)),
        },
        Err(wrong) => Err(wrong),
    }
}

/// A sample has 4 or 8 bytes.
fn whole_item(item: u64) -> Result<u64, Wrong>
    ensures { result ≡ whole_item item }
{
    if item == 4 || item == 8 {
        Ok(item)
    } else {
        Err(bad(Field::Value, Why::Range))
    }
}

fn property_value(property: Prop, command: &Value) -> Result<u64, Wrong>
    ensures { result ≡ property_value property (view command.now) }
{
    match property {
        Prop::Rate => number(RATE, command),
        Prop::Item => whole_item(number(ITEM, command)?),
        Prop::Spp => number(SPP, command),
    }
}

#[tactic(auto, unfolding(crate::specs::Connect::set))]
pub(crate) fn set(alloc: Global, command: &Value) -> Result<ScriptCommand, Wrong>
    ensures ok { IfOk result (λ made. set (view command.now) ≡ Ok made) }
    ensures err { IfErr result (λ e. IsFault e → set (view command.now) ≡ Err e) }
{
    let block = number(SET_BLOCK, command)?;
    let side = side(command)?;
    let port = number(SET_PORT, command)?;
    let prop = property(command)?;
    let value = property_value(prop, command)?;
    only(
        alloc,
        &[
            Field::Do,
            Field::Block,
            Field::Side,
            Field::Port,
            Field::Property,
            Field::Value,
        ],
        command,
    )?;
    Ok(ScriptCommand::Set {
        at: PropAt {
            block: block as u16,
            side,
            port: port as u16,
            prop,
        },
        value,
    })
}

#[tactic(auto, unfolding(crate::specs::Connect::commit))]
pub(crate) fn commit(alloc: Global, command: &Value) -> Result<ScriptCommand, Wrong>
    ensures ok { IfOk result (λ made. commit (view command.now) ≡ Ok made) }
    ensures err { IfErr result (λ e. IsFault e → commit (view command.now) ≡ Err e) }
{
    only(alloc, &[Field::Do], command)?;
    Ok(ScriptCommand::Commit)
}
