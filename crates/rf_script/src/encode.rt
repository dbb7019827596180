//! A script as bytes.
ghost use Rattle.std.specs.Prelude.{◌≡◌, ◌≤◌, Some, IfOk, length};
ghost use Rattle.rf_script_types.specs.CommandText.{script_text};
ghost use Rattle.rf_script_types.specs.Fits.{FitsScript};
ghost use Rattle.rf_script_reader.specs.Read.{script_limit};
ghost use Rattle.rf_script_round.specs.Back.{IsReadAs};
ghost use Rattle.serde_json.specs.Read.{read};
ghost use Rattle.serde_json.specs.Written.{compact_text};

use rf_base::{Bytes, Memory};
use rf_script_types::Script;
use std::alloc::Global;

/// The canonical text of a script: compact JSON with the keys in the order of their bytes, in which
/// every field with a default is written.
///
/// A script of the language is read back from it, unless the text is too long to be read.
#[tactic(auto, using(rf_script_round::proofs::Laws::text_back))]
pub fn encode_script(alloc: Global, script: &Script) -> Result<Bytes, Memory>
    ensures canonical { IfOk result (λ text. text ≡ compact_text (script_text script.now)) }
    ensures reads { IfOk result (λ text. read text ≡ Some (script_text script.now)) }
    ensures back { IfOk result (λ text. FitsScript script.now → length text ≤ script_limit
        → IsReadAs text script.now) }
{
    rf_script_writer::encode_script(alloc, script)
}
