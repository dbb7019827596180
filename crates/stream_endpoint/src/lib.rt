//! Both ends of a stream: credit at the sender, gaps and resynchronisation at the receiver.
#![tactic(auto)]

mod count;
mod flow;
mod in_end;
mod out_end;
mod state;

pub use count::Count;
pub use flow::{Flow, Policy};
pub use in_end::InEnd;
pub use out_end::OutEnd;
pub use state::{Arrived, Gap, Notice, OutState};
