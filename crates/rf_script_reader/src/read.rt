//! A script from bytes.
ghost use Rattle.std.specs.Prelude.{◌≡◌, ◌≢◌, Err};
ghost use Rattle.rf_script_reader.specs.Read.{IsScriptOf};

use crate::commands::script_of;
use rf_script_types::{SCRIPT_LIMIT, Script, ScriptFault};
use serde_json::Value;
use std::alloc::Global;

/// The script that the bytes are, or why they are none; docs/script-language.md has the language.
///
/// The result is exact, unless memory runs out.
pub fn read_script(alloc: Global, bytes: &[u8]) -> Result<Script, ScriptFault>
    ensures { result ≢ Err ScriptFault.Memory → IsScriptOf bytes.now result }
{
    if bytes.len() > SCRIPT_LIMIT {
        return Err(ScriptFault::TooLong);
    }
    match Value::from_slice(alloc, bytes) {
        Ok(value) => script_of(alloc, &value),
        Err(error) => if error.is_memory() {
            Err(ScriptFault::Memory)
        } else {
            Err(ScriptFault::Syntax)
        },
    }
}
