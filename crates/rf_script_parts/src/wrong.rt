use chdr_words::Bytes;
use rf_script_types::{Field, Why};

/// What is wrong with a command, or with the script itself.
#[derive(Debug, Drop)]
pub enum Wrong {
    /// A field that the language has.
    At { field: Field, why: Why },
    /// A key that isn't one of the command's fields.
    Unknown { key: Bytes },
    Memory,
}
