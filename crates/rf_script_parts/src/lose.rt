//! The packets that a command loses.
ghost use Rattle.std.specs.Prelude.{◌≡◌, [], option_map, IfOk, IfErr, OnOk, Ok, Err};
ghost use Rattle.rf_script_parts.specs.Value.{IsFault};
ghost use Rattle.rf_script_parts.specs.Lose.{head_of, stream_fault, plain_fault, stream_entry, plain_entry, any_entry, is_stream_sort, fault_entry, lose, lose_list};
ghost use Rattle.serde_json.specs.View.{view, items_view};

use crate::entries::{Entries, read_entries};
use crate::value::{bad, element, find, listed, ranged, sized};
use crate::wrong::Wrong;
use net_faults::{Fault, Faults};
use rf_base::Items;
use rf_script_types::{Field, LOSE_PLACE, LOSE_STREAM, Sort, Why, lose_limit};
use serde_json::Value;
use std::alloc::Global;

/// Which sorts of packets a command's list may name.
#[derive(Clone, Copy, Debug)]
pub enum Sorts {
    /// Those of streams, as in a run.
    Stream,
    /// Requests and answers, as in a control command.
    Plain,
    /// All, as in a duplex.
    Any,
}

/// The faults that were read of a list.
#[derive(Debug, Drop)]
pub struct Losses {
    pub sorts: Sorts,
    pub list: Faults,
}

/// The sort that an entry begins with: none where the word isn't listed.
fn head_of(entry: &Value) -> Result<Option<Sort>, Wrong>
    ensures { result ≡ head_of (view entry.now) }
{
    match entry.get(0).and_then(Value::as_str) {
        Some(text) => Ok(Sort::of_name(text)),
        None => Err(bad(Field::Lose, Why::WrongType)),
    }
}

fn stream_fault(sort: Option<Sort>, stream: u16, place: u32) -> Option<Fault>
    ensures { result ≡ stream_fault sort stream place }
{
    match sort? {
        Sort::Samples => Some(Fault::Samples(stream, place)),
        Sort::Status => Some(Fault::Status(stream, place)),
        Sort::Command => Some(Fault::Command(stream, place)),
        Sort::Request | Sort::Answer => None,
    }
}

fn plain_fault(sort: Option<Sort>, place: u32) -> Option<Fault>
    ensures { result ≡ plain_fault sort place }
{
    match sort? {
        Sort::Request => Some(Fault::Request(place)),
        Sort::Answer => Some(Fault::Answer(place)),
        Sort::Samples | Sort::Status | Sort::Command => None,
    }
}

/// `["data", stream, place]`, and likewise a status or a command.
#[tactic(auto, unfolding(crate::specs::Lose::stream_entry))]
fn stream_entry(entry: &Value) -> Result<Fault, Wrong>
    ensures { result ≡ stream_entry (view entry.now) }
{
    sized(Field::Lose, 3, entry)?;
    let sort = head_of(entry)?;
    let stream = element(Field::Lose, 1, entry)?;
    let place = element(Field::Lose, 2, entry)?;
    let stream = ranged(LOSE_STREAM, stream)?;
    let place = ranged(LOSE_PLACE, place)?;
    listed(Field::Lose, stream_fault(sort, stream as u16, place as u32))
}

/// `["request", place]`, and likewise an answer.
#[tactic(auto, unfolding(crate::specs::Lose::plain_entry))]
fn plain_entry(entry: &Value) -> Result<Fault, Wrong>
    ensures { result ≡ plain_entry (view entry.now) }
{
    sized(Field::Lose, 2, entry)?;
    let sort = head_of(entry)?;
    let place = element(Field::Lose, 1, entry)?;
    let place = ranged(LOSE_PLACE, place)?;
    listed(Field::Lose, plain_fault(sort, place as u32))
}

fn is_stream_sort(sort: Sort) -> bool
    ensures { result ≡ is_stream_sort sort }
{
    match sort {
        Sort::Samples | Sort::Status | Sort::Command => true,
        Sort::Request | Sort::Answer => false,
    }
}

/// An entry whose length goes by its word.
#[tactic(auto, unfolding(crate::specs::Lose::any_entry))]
fn any_entry(entry: &Value) -> Result<Fault, Wrong>
    ensures { result ≡ any_entry (view entry.now) }
{
    let sort = listed(Field::Lose, head_of(entry)?)?;
    if is_stream_sort(sort) {
        stream_entry(entry)
    } else {
        plain_entry(entry)
    }
}

fn fault_entry(sorts: Sorts, entry: &Value) -> Result<Fault, Wrong>
    ensures { result ≡ fault_entry sorts (view entry.now) }
{
    match sorts {
        Sorts::Stream => stream_entry(entry),
        Sorts::Plain => plain_entry(entry),
        Sorts::Any => any_entry(entry),
    }
}

impl Entries for Losses {
    ghost use Rattle.rf_script_parts.specs.Lose.{losses};

    ghost step = { losses };

    fn add(&mut self, _alloc: Global, entry: &Value) -> Result<(), Wrong> {
        let fault = fault_entry(self.sorts, entry)?;
        match self.list.push(fault) {
            Ok(()) => Ok(()),
            Err(_) => Err(Wrong::Memory),
        }
    }
}

/// The entries of a list of at most `limit`.
#[tactic(auto, using(crate::proofs::Lengths::lengths), unfolding(crate::specs::Lose::lose_list))]
fn lose_list(
    alloc: Global,
    sorts: Sorts,
    limit: usize,
    values: &Vec<Value>,
) -> Result<Faults, Wrong>
    ensures ok { IfOk result
        (λ list. lose_list sorts limit (items_view values.now.items) ≡ Ok list) }
    ensures err { IfErr result
        (λ e. IsFault e → lose_list sorts limit (items_view values.now.items) ≡ Err e) }
{
    if values.len() > limit {
        return Err(bad(Field::Lose, Why::Range));
    }
    let before = Losses {
        sorts,
        list: Items::new(alloc),
    };
    let all = read_entries(alloc, before, values)?;
    Ok(all.list)
}

/// The field `lose`, the empty list where it isn't there.
#[tactic(auto, unfolding(crate::specs::Lose::lose))]
pub fn lose(alloc: Global, version: u8, sorts: Sorts, command: &Value) -> Result<Faults, Wrong>
    ensures ok { IfOk result (λ list. lose version sorts (view command.now) ≡ Ok list) }
    ensures err { IfErr result (λ e. IsFault e → lose version sorts (view command.now) ≡ Err e) }
{
    let Some(value) = find(Field::Lose, command) else {
        return Ok(Items::new(alloc));
    };
    match value.as_array() {
        Some(values) => lose_list(alloc, sorts, lose_limit(version), values),
        None => Err(bad(Field::Lose, Why::WrongType)),
    }
}
