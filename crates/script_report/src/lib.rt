//! The report of a script, written in pieces or made as one text.
//!
//! Rule: docs/report.md.
#![tactic(auto)]

mod gather;
mod list;
mod lists;
mod writing;

pub use gather::report;
pub use writing::{ReportFault, write_report};
