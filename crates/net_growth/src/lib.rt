//! What the consumer of a stream has only grows: what each event adds to it, takes of it, and makes ready.
//!
//! Rule: docs/machine.md, "Events".
#![tactic(auto)]

mod law;

pub use law::{
    a_taking_only_takes, only_an_enter_uses_up_what_a_tx_made, what_is_given_only_grows,
};
