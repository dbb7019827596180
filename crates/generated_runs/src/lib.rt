//! What one thread does of the generated script.
//!
//! Rule: docs/scripts-and-reports.md.
#![tactic(auto)]

mod law;

pub use law::the_generated_script_is_done;
