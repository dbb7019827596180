//! The language of scripts: reading them, writing them, and the generated one.
#![tactic(auto)]

mod encode;
mod generated;

pub use encode::encode_script;
pub use generated::gen_script;
pub use rf_script_reader::read_script;
pub use rf_script_types::{
    Act, Acts, Due, Field, SCRIPT_LIMIT, Script, ScriptCommand, ScriptCommands, ScriptFault, Why,
};
