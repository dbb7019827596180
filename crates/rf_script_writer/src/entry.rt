//! The entries of lists.
ghost use Rattle.std.specs.Prelude.{◌≡◌, IfOk};
ghost use Rattle.rf_script_types.specs.Text.{crossbar_text, adapter_text, host_text, endpoint_text, stream_fault_text, plain_fault_text, due_text, unload_text, move_text, control_text};
ghost use Rattle.serde_json.specs.View.{view};

use crate::list::{Written, list_value, pair_value};
use crate::object::Object;
use chdr_words::{Control, Epid};
use net_faults::Fault;
use net_topology::{LinkPlan, NodePlan};
use rf_base::Memory;
use rf_script_types::{Act, ActWord, Due, Field, NodeWord, Sort, op_name};
use serde_json::Value;
use std::alloc::Global;

impl Written for Epid {
    ghost use Rattle.rf_script_types.specs.Text.{end_text};

    ghost written = { end_text };

    fn value(&self, _alloc: Global) -> Result<Value, Memory> {
        Ok(Value::from(self.0))
    }
}

impl Written for u32 {
    ghost use Rattle.rf_script_types.specs.Text.{whole};

    ghost written = { whole };

    fn value(&self, _alloc: Global) -> Result<Value, Memory> {
        Ok(Value::from(*self))
    }
}

impl Written for LinkPlan {
    ghost use Rattle.rf_script_types.specs.Text.{link_text};

    ghost written = { link_text };

    fn value(&self, alloc: Global) -> Result<Value, Memory> {
        let mut values = Vec::with_capacity(alloc, 4)?;
        values.push(Value::from(self.a))?;
        values.push(Value::from(self.a_port))?;
        values.push(Value::from(self.b))?;
        values.push(Value::from(self.b_port))?;
        Ok(Value::from(values))
    }
}

impl Written for NodePlan {
    ghost use Rattle.rf_script_types.specs.Text.{node_text};

    ghost written = { node_text };

    fn value(&self, alloc: Global) -> Result<Value, Memory> {
        match self {
            NodePlan::Crossbar { ports } => crossbar(alloc, *ports),
            NodePlan::Adapter => adapter(alloc),
            NodePlan::Host { epid } => host(alloc, *epid),
            NodePlan::Endpoint { epid, bank } => endpoint(alloc, *epid, *bank),
        }
    }
}

fn crossbar(alloc: Global, ports: u8) -> Result<Value, Memory>
    ensures { IfOk result (λ v. view v ≡ crossbar_text ports) }
{
    let mut node = Object::new(alloc);
    node.word(alloc, Field::Kind, NodeWord::Crossbar.name())?;
    node.number(alloc, Field::Ports, ports as u64)?;
    Ok(node.into_value())
}

fn adapter(alloc: Global) -> Result<Value, Memory>
    ensures { IfOk result (λ v. view v ≡ adapter_text) }
{
    let mut node = Object::new(alloc);
    node.word(alloc, Field::Kind, NodeWord::Adapter.name())?;
    Ok(node.into_value())
}

fn host(alloc: Global, epid: Epid) -> Result<Value, Memory>
    ensures { IfOk result (λ v. view v ≡ host_text epid) }
{
    let mut node = Object::new(alloc);
    node.number(alloc, Field::Epid, epid.0 as u64)?;
    node.word(alloc, Field::Kind, NodeWord::Host.name())?;
    Ok(node.into_value())
}

fn endpoint(alloc: Global, epid: Epid, bank: Option<u16>) -> Result<Value, Memory>
    ensures { IfOk result (λ v. view v ≡ endpoint_text epid bank) }
{
    let mut node = Object::new(alloc);
    node.number(alloc, Field::Epid, epid.0 as u64)?;
    node.word(alloc, Field::Kind, NodeWord::Endpoint.name())?;
    if let Some(bank) = bank {
        node.number(alloc, Field::Bank, bank as u64)?;
    }
    Ok(node.into_value())
}

/// `[word, stream, place]`
fn stream_fault(alloc: Global, sort: Sort, stream: u16, place: u32) -> Result<Value, Memory>
    ensures { IfOk result (λ v. view v ≡ stream_fault_text sort stream place) }
{
    let mut values = Vec::with_capacity(alloc, 3)?;
    values.push(Value::try_from_str(alloc, sort.name())?)?;
    values.push(Value::from(stream))?;
    values.push(Value::from(place))?;
    Ok(Value::from(values))
}

/// `[word, place]`
fn plain_fault(alloc: Global, sort: Sort, place: u32) -> Result<Value, Memory>
    ensures { IfOk result (λ v. view v ≡ plain_fault_text sort place) }
{
    let mut values = Vec::with_capacity(alloc, 2)?;
    values.push(Value::try_from_str(alloc, sort.name())?)?;
    values.push(Value::from(place))?;
    Ok(Value::from(values))
}

impl Written for Fault {
    ghost use Rattle.rf_script_types.specs.Text.{fault_text};

    ghost written = { fault_text };

    fn value(&self, alloc: Global) -> Result<Value, Memory> {
        match self {
            Fault::Samples(stream, place) => stream_fault(alloc, Sort::Samples, *stream, *place),
            Fault::Status(stream, place) => stream_fault(alloc, Sort::Status, *stream, *place),
            Fault::Command(stream, place) => stream_fault(alloc, Sort::Command, *stream, *place),
            Fault::Request(place) => plain_fault(alloc, Sort::Request, *place),
            Fault::Answer(place) => plain_fault(alloc, Sort::Answer, *place),
        }
    }
}

fn due(alloc: Global, due: Due) -> Result<Value, Memory>
    ensures { IfOk result (λ v. view v ≡ due_text due) }
{
    pair_value(alloc, due.stream as u64, due.taken)
}

/// `[word, due, first]`
fn unload(alloc: Global, at: Due, port: u16) -> Result<Value, Memory>
    ensures { IfOk result (λ v. view v ≡ unload_text at port) }
{
    let mut values = Vec::with_capacity(alloc, 3)?;
    values.push(Value::try_from_str(alloc, ActWord::Unload.name())?)?;
    values.push(due(alloc, at)?)?;
    values.push(Value::from(port))?;
    Ok(Value::from(values))
}

/// `[word, due, from, to]`
fn shift(alloc: Global, at: Due, from: u16, to: u16) -> Result<Value, Memory>
    ensures { IfOk result (λ v. view v ≡ move_text at from to) }
{
    let mut values = Vec::with_capacity(alloc, 4)?;
    values.push(Value::try_from_str(alloc, ActWord::Move.name())?)?;
    values.push(due(alloc, at)?)?;
    values.push(Value::from(from))?;
    values.push(Value::from(to))?;
    Ok(Value::from(values))
}

/// `[word, due, to, port, op, addr, words]`
fn control(alloc: Global, at: Due, to: Epid, request: &Control) -> Result<Value, Memory>
    ensures { IfOk result (λ v. view v ≡ control_text at to request.now) }
{
    let mut values = Vec::with_capacity(alloc, 7)?;
    values.push(Value::try_from_str(alloc, ActWord::Control.name())?)?;
    values.push(due(alloc, at)?)?;
    values.push(Value::from(to.0))?;
    values.push(Value::from(request.dst_port))?;
    values.push(Value::try_from_str(alloc, op_name(request.op))?)?;
    values.push(Value::from(request.addr))?;
    values.push(list_value(alloc, request.words.as_slice())?)?;
    Ok(Value::from(values))
}

impl Written for Act {
    ghost use Rattle.rf_script_types.specs.Text.{act_text};

    ghost written = { act_text };

    fn value(&self, alloc: Global) -> Result<Value, Memory> {
        match self {
            Act::Control { at, to, request } => control(alloc, *at, *to, request),
            Act::Unload { at, port } => unload(alloc, *at, *port),
            Act::Move { at, from, to } => shift(alloc, *at, *from, *to),
        }
    }
}
