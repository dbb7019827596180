//! Banks of registers, which the caller hands in, and the control operations on them.
#![tactic(auto)]

mod answer;
mod bank;
mod banks;
mod bits;
mod fixed;
mod law;
mod operation;
mod plain;
mod slots;

pub use bank::{Bank, RegisterBank};
pub use banks::{Banks, RegisterSlots};
pub use fixed::operate_fixed;
pub use law::{
    each_slot_sees_its_own_requests, later_answers_follow_earlier_requests,
    requests_leave_their_writes,
};
pub use operation::operate_on;
pub use plain::PlainBank;
