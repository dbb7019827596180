//! Worked runs of the machine, computed by its definitions alone.
//!
//! Each law is a run of a small network that was worked out by hand; docs/machine.md names them.
#![tactic(auto)]

mod law;

pub use law::{
    a_plan_can_begin, blocks_pass_packets_on, capacity_bounds_what_is_outstanding,
    hosts_read_and_write_registers, losses_end_or_resynchronise_a_stream, numbers_wrap,
    three_packets_cross_a_crossbar,
};
