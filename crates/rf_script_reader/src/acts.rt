//! What a duplex does beside its run.
ghost use Rattle.std.specs.Prelude.{◌≡◌, IfOk, IfErr, Ok, Err};
ghost use Rattle.rf_script_parts.specs.Value.{IsFault};
ghost use Rattle.rf_script_reader.specs.Acts.{act_word, due_pair, due_of, operation_at, typed_parts, act_of_parts, act_words, control_act, unload_act, move_act, act, act_list, acts};
ghost use Rattle.serde_json.specs.View.{view, items_view};

use chdr_words::{Control, CtrlOp, CtrlStatus, Epid, Words15};
use rf_base::Items;
use rf_script_parts::entries::{Entries, read_entries};
use rf_script_parts::pair::Pair;
use rf_script_parts::value::{bad, element, listed, ranged, required, sized};
use rf_script_parts::words::{check_words, operation, word_list};
use rf_script_parts::wrong::Wrong;
use rf_script_types::{
    ACT_ADDR, ACT_LIMIT, ACT_PORT, ACT_SLOT, ACT_STREAM, ACT_TAKEN, ACT_TO, ACT_WORD, Act, ActWord,
    Acts, Due, Field, Why,
};
use serde_json::Value;
use std::alloc::Global;

/// The word that an act begins with.
#[tactic(auto, unfolding(crate::specs::Acts::act_word))]
fn act_word(entry: &Value) -> Result<ActWord, Wrong>
    ensures { result ≡ act_word (view entry.now) }
{
    match entry.get(0).and_then(Value::as_str) {
        Some(text) => listed(Field::Acts, ActWord::of_name(text)),
        None => Err(bad(Field::Acts, Why::WrongType)),
    }
}

/// `[stream, taken]`, whose ranges aren't looked at yet.
#[tactic(auto, unfolding(crate::specs::Acts::due_pair))]
fn due_pair(entry: &Value) -> Result<Pair, Wrong>
    ensures { result ≡ due_pair (view entry.now) }
{
    match entry.get(1) {
        Some(value) => {
            sized(Field::Acts, 2, value)?;
            let stream = element(Field::Acts, 0, value)?;
            let taken = element(Field::Acts, 1, value)?;
            Ok(Pair {
                first: stream,
                second: taken,
            })
        }
        None => Err(bad(Field::Acts, Why::WrongType)),
    }
}

#[tactic(auto, unfolding(crate::specs::Acts::due_of))]
fn due_of(pair: Pair) -> Result<Due, Wrong>
    ensures { result ≡ due_of pair }
{
    let stream = ranged(ACT_STREAM, pair.first)?;
    let taken = ranged(ACT_TAKEN, pair.second)?;
    Ok(Due {
        stream: stream as u16,
        taken,
    })
}

/// The operation of an item: none where the word isn't listed.
#[tactic(auto, unfolding(crate::specs::Acts::operation_at))]
fn operation_at(entry: &Value) -> Result<Option<CtrlOp>, Wrong>
    ensures { result ≡ operation_at (view entry.now) }
{
    match entry.get(4) {
        Some(value) => operation(Field::Acts, value),
        None => Err(bad(Field::Acts, Why::WrongType)),
    }
}

/// What the control request of an act has besides its words.
#[derive(Clone, Copy, Debug)]
pub struct Parts {
    pub due: Pair,
    pub to: u64,
    pub port: u64,
    pub op: Option<CtrlOp>,
    pub addr: u64,
}

/// The parts of a control act by their types.
#[tactic(auto, unfolding(crate::specs::Acts::typed_parts))]
fn typed_parts(entry: &Value) -> Result<Parts, Wrong>
    ensures { result ≡ typed_parts (view entry.now) }
{
    sized(Field::Acts, 7, entry)?;
    let due = due_pair(entry)?;
    let to = element(Field::Acts, 2, entry)?;
    let port = element(Field::Acts, 3, entry)?;
    let op = operation_at(entry)?;
    let addr = element(Field::Acts, 5, entry)?;
    Ok(Parts {
        due,
        to,
        port,
        op,
        addr,
    })
}

/// A control act, whose words are read.
#[tactic(auto, unfolding(crate::specs::Acts::act_of_parts))]
fn act_of_parts(host: Epid, number: u8, parts: Parts, words: Words15) -> Result<Act, Wrong>
    ensures { result ≡ act_of_parts host number parts words }
{
    let at = due_of(parts.due)?;
    let to = ranged(ACT_TO, parts.to)?;
    let port = ranged(ACT_PORT, parts.port)?;
    let op = listed(Field::Acts, parts.op)?;
    let addr = ranged(ACT_ADDR, parts.addr)?;
    Ok(Act::Control {
        at,
        to: Epid(to as u16),
        request: Control {
            src: host,
            ack: false,
            time: None,
            seq: number,
            src_port: 0,
            dst_port: port as u16,
            status: CtrlStatus::Okay,
            op,
            enables: 15,
            addr: addr as u32,
            words,
        },
    })
}

/// The words of a control act: all types before all ranges.
#[tactic(auto, unfolding(crate::specs::Acts::act_words))]
fn act_words(alloc: Global, entry: &Value) -> Result<Words15, Wrong>
    ensures ok { IfOk result (λ words. act_words (view entry.now) ≡ Ok words) }
    ensures err { IfErr result (λ e. IsFault e → act_words (view entry.now) ≡ Err e) }
{
    let Some(value) = entry.get(6) else {
        return Err(bad(Field::Acts, Why::WrongType));
    };
    match value.as_array() {
        Some(values) => {
            check_words(alloc, Field::Acts, values)?;
            word_list(alloc, ACT_WORD, values)
        }
        None => Err(bad(Field::Acts, Why::WrongType)),
    }
}

/// `["control", due, to, port, op, addr, words]`
#[tactic(auto, unfolding(crate::specs::Acts::control_act))]
fn control_act(alloc: Global, host: Epid, number: u8, entry: &Value) -> Result<Act, Wrong>
    ensures ok { IfOk result (λ made. control_act host number (view entry.now) ≡ Ok made) }
    ensures err { IfErr result (λ e. IsFault e → control_act host number (view entry.now) ≡ Err e) }
{
    let parts = typed_parts(entry)?;
    let words = act_words(alloc, entry)?;
    act_of_parts(host, number, parts, words)
}

/// `["unload", due, port]`
#[tactic(auto, unfolding(crate::specs::Acts::unload_act))]
fn unload_act(entry: &Value) -> Result<Act, Wrong>
    ensures { result ≡ unload_act (view entry.now) }
{
    sized(Field::Acts, 3, entry)?;
    let due = due_pair(entry)?;
    let port = element(Field::Acts, 2, entry)?;
    let at = due_of(due)?;
    let port = ranged(ACT_SLOT, port)?;
    Ok(Act::Unload {
        at,
        port: port as u16,
    })
}

/// `["move", due, from, to]`, between two ports.
#[tactic(auto, unfolding(crate::specs::Acts::move_act))]
fn move_act(entry: &Value) -> Result<Act, Wrong>
    ensures { result ≡ move_act (view entry.now) }
{
    sized(Field::Acts, 4, entry)?;
    let due = due_pair(entry)?;
    let from = element(Field::Acts, 2, entry)?;
    let to = element(Field::Acts, 3, entry)?;
    let at = due_of(due)?;
    let from = ranged(ACT_SLOT, from)?;
    let to = ranged(ACT_SLOT, to)?;
    if from == to {
        return Err(bad(Field::Acts, Why::Range));
    }
    Ok(Act::Move {
        at,
        from: from as u16,
        to: to as u16,
    })
}

/// An act, whose length goes by its word.
#[tactic(auto, unfolding(crate::specs::Acts::act))]
fn act(alloc: Global, host: Epid, number: u8, entry: &Value) -> Result<Act, Wrong>
    ensures ok { IfOk result (λ made. act host number (view entry.now) ≡ Ok made) }
    ensures err { IfErr result (λ e. IsFault e → act host number (view entry.now) ≡ Err e) }
{
    match act_word(entry)? {
        ActWord::Control => control_act(alloc, host, number, entry),
        ActWord::Unload => unload_act(entry),
        ActWord::Move => move_act(entry),
    }
}

/// The acts that were read of a list.
#[derive(Debug, Drop)]
pub struct ActsSoFar {
    pub host: Epid,
    pub list: Acts,
}

impl Entries for ActsSoFar {
    ghost use Rattle.rf_script_reader.specs.Acts.{more_acts};

    ghost step = { more_acts };

    fn add(&mut self, alloc: Global, entry: &Value) -> Result<(), Wrong> {
        let number = (self.list.len() % 64) as u8;
        let act = act(alloc, self.host, number, entry)?;
        match self.list.push(act) {
            Ok(()) => Ok(()),
            Err(_) => Err(Wrong::Memory),
        }
    }
}

#[tactic(auto, using(crate::proofs::Lengths::lengths), unfolding(crate::specs::Acts::act_list))]
fn act_list(alloc: Global, host: Epid, values: &Vec<Value>) -> Result<Acts, Wrong>
    ensures ok { IfOk result (λ list. act_list host (items_view values.now.items) ≡ Ok list) }
    ensures err { IfErr result
        (λ e. IsFault e → act_list host (items_view values.now.items) ≡ Err e) }
{
    if values.is_empty() || values.len() > ACT_LIMIT {
        return Err(bad(Field::Acts, Why::Range));
    }
    let before = ActsSoFar {
        host,
        list: Items::new(alloc),
    };
    let all = read_entries(alloc, before, values)?;
    Ok(all.list)
}

/// The field `acts`.
#[tactic(auto, unfolding(crate::specs::Acts::acts))]
pub(crate) fn acts(alloc: Global, host: Epid, command: &Value) -> Result<Acts, Wrong>
    ensures ok { IfOk result (λ list. acts host (view command.now) ≡ Ok list) }
    ensures err { IfErr result (λ e. IsFault e → acts host (view command.now) ≡ Err e) }
{
    match required(Field::Acts, Field::Acts, command) {
        Ok(value) => match value.as_array() {
            Some(values) => act_list(alloc, host, values),
            None => Err(bad(Field::Acts, Why::WrongType)),
        },
        Err(wrong) => Err(wrong),
    }
}
