//! The blocks of a radio graph, as functions from the packets that go in to those that come out.
#![tactic(auto)]

mod block;
mod kind;
mod law;
mod line;
mod make;
mod plan;

pub use block::{Block, Fed};
pub use kind::BlockKind;
pub use law::{
    a_history_grows_by_packets, a_plan_gives_its_packets, blocks_grow_by_prefixes,
    fed_packets_bound_given_ones, given_packets_are_few, lines_grow_by_packets,
    packets_within_a_bound_are_small, what_a_block_keeps_stays_fit,
};
pub use line::Line;
pub use plan::TxPlan;
