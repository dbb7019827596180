//! What is written of a script is read back: laws over the definitions of the reader and the writer.
#![tactic(auto)]

mod law;

pub use law::{a_text_of_a_script_is_read_as_it, the_value_of_a_script_is_read_as_it};
