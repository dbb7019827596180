//! A list of flags in words of 64, of which the next set one is found word by word.
#![tactic(auto)]

mod flags;

pub use flags::Flags;
