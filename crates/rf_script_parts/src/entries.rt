//! Lists, which are read entry by entry.
ghost use Rattle.std.specs.Prelude.{◌≡◌, IfOk, IfErr, OnOk, Ok, Err};
ghost use Rattle.rf_script_parts.specs.Value.{IsFault};
ghost use Rattle.rf_script_parts.specs.Entries.{entries};
ghost use Rattle.serde_json.specs.View.{view, items_view};

use crate::wrong::Wrong;
use serde_json::Value;
use std::alloc::Global;

/// What has been read of a list so far.
pub trait Entries: Drop + Sized {
    ghost use Rattle.std.specs.Prelude.{Result};
    ghost use Rattle.serde_json.specs.Data.{Data};
    ghost use Rattle.rf_script_parts.specs.declared.wrong.Wrong.{Wrong};

    /// What one more entry makes of it.
    ghost step: { Self → Data → Result Self Wrong };

    fn add(&mut self, alloc: Global, value: &Value) -> Result<(), Wrong>
        ensures ok { OnOk result (step self.old (view value.now) ≡ Ok self.new) }
        ensures err { IfErr result (λ e. IsFault e → step self.old (view value.now) ≡ Err e) };
}

/// What is read of a whole list, from what stands before it.
pub fn read_entries<S: Entries>(alloc: Global, before: S, values: &Vec<Value>) -> Result<S, Wrong>
    ensures ok { IfOk result
        (λ all. entries S.step before (items_view values.now.items) ≡ Ok all) }
    ensures err { IfErr result
        (λ e. IsFault e → entries S.step before (items_view values.now.items) ≡ Err e) }
{
    let mut read = before;
    for value in values {
        read.add(alloc, value)?;
    }
    Ok(read)
}
