//! The lines of a script's report, as text on a page.
//!
//! Rule: docs/report.md.
#![tactic(auto)]

mod commands;
mod lines;
mod names;
mod page;
mod refusal_text;

pub use commands::{put_command, put_done};
pub use lines::{put_act, put_event, put_node, put_peak, put_sink, put_stream};
pub use page::{LINE, Page};
pub use refusal_text::put_refusal;
