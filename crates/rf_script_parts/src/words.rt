//! The words of a control request, and its operation.
ghost use Rattle.std.specs.Prelude.{◌≡◌, IfOk, IfErr, OnOk, Ok, Err, length};
ghost use Rattle.rf_script_parts.specs.Value.{IsFault};
ghost use Rattle.rf_script_parts.specs.Words.{operation, check_words, word_list};
ghost use Rattle.serde_json.specs.View.{view, items_view};

use crate::entries::{Entries, read_entries};
use crate::value::{bad, ranged, whole};
use crate::wrong::Wrong;
use chdr_words::{CtrlOp, Words15};
use rf_script_types::{Field, Number, Why, op_of};
use serde_json::Value;
use std::alloc::Global;

/// The operation of a text: none where the word isn't listed.
pub fn operation(told: Field, value: &Value) -> Result<Option<CtrlOp>, Wrong>
    ensures { result ≡ operation told (view value.now) }
{
    match value.as_str() {
        Some(text) => Ok(op_of(text)),
        None => Err(bad(told, Why::WrongType)),
    }
}

/// A list of which each item is looked at for its type.
#[derive(Debug, Drop)]
pub struct Wholes {
    pub told: Field,
}

impl Entries for Wholes {
    ghost use Rattle.rf_script_parts.specs.Words.{wholes};

    ghost step = { wholes };

    fn add(&mut self, _alloc: Global, value: &Value) -> Result<(), Wrong> {
        whole(self.told, value)?;
        Ok(())
    }
}

/// The words that were read of a list.
#[derive(Debug, Drop)]
pub struct WordsSoFar {
    pub range: Number,
    pub words: Words15,
}

impl Entries for WordsSoFar {
    ghost use Rattle.rf_script_parts.specs.Words.{more_words};

    ghost step = { more_words };

    fn add(&mut self, _alloc: Global, value: &Value) -> Result<(), Wrong> {
        let n = ranged(self.range, whole(self.range.told, value)?)?;
        if self.words.len() < 15 && n <= 0xffff_ffff {
            self.words.push(n as u32);
            Ok(())
        } else {
            Err(bad(self.range.told, Why::Range))
        }
    }
}

/// That each item is a number.
#[tactic(auto, unfolding(crate::specs::Words::check_words))]
pub fn check_words(alloc: Global, told: Field, values: &Vec<Value>) -> Result<(), Wrong>
    ensures ok { OnOk result (check_words told (items_view values.now.items) ≡ Ok tt) }
    ensures err { IfErr result
        (λ e. IsFault e → check_words told (items_view values.now.items) ≡ Err e) }
{
    read_entries(alloc, Wholes { told }, values)?;
    Ok(())
}

/// The words of a list of numbers.
#[tactic(auto, unfolding(crate::specs::Words::word_list))]
pub fn word_list(alloc: Global, range: Number, values: &Vec<Value>) -> Result<Words15, Wrong>
    ensures ok { IfOk result (λ words. word_list range (items_view values.now.items) ≡ Ok words) }
    ensures err { IfErr result
        (λ e. IsFault e → word_list range (items_view values.now.items) ≡ Err e) }
{
    let before = WordsSoFar {
        range,
        words: Words15::new(),
    };
    let all = read_entries(alloc, before, values)?;
    Ok(all.words)
}
