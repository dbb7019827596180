//! A network that is settled but for one message, a request or its answer: it goes as the message does.
//!
//! Rule: docs/machine-laws.md, "One message".
#![tactic(auto)]

mod law;

pub use law::{
    control_requests_come_back, messages_are_carried, one_message_goes_alone,
    one_message_has_one_end,
};
