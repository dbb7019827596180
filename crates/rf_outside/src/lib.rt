//! Where bytes come from and go to: sources and sinks that count their faults, and the loop over a
//! source's pieces.
//!
//! Rule: docs/scripts-and-reports.md, "Sources and sinks".
#![tactic(auto)]

mod failed;
mod loops;
mod mem_sink;
mod mem_source;
mod pieces;
mod sink;
mod source;
mod std_ends;
mod sure;
mod text;

pub use failed::{Failed, ReadAllFault};
pub use loops::{read_all, write_all};
pub use mem_sink::MemSink;
pub use mem_source::MemSource;
pub use pieces::{PIECE, PieceReader, Progress, Stop, read_pieces};
pub use rf_base::CountList;
pub use sink::Sink;
pub use source::Source;
pub use std_ends::{StdSink, StdSource};
pub use sure::{SureSink, SureSource};
pub use text::Text;
