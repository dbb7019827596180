//! What is read as a script fits: each number is in its range, each list within its bounds.
#![tactic(auto)]

mod law;

pub use law::what_is_read_fits;
