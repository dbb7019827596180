//! Packets and words spelled out byte by byte, to which readers and writers of the format are held.
//!
//! Each group of bytes has its field beside it; docs/wire-format.md draws the layouts.
#![tactic(auto)]

mod vectors;

pub use vectors::{
    DATA_PACKET, INFORMATION_RESPONSE, LONG_CONTROL_PACKET, MISCOUNTED_HOP, RESYNC_COMMAND,
    SEQUENCE_ERROR_INFO, SHORT_CONTROL_PACKET, STATUS_PACKET,
};

#[cfg(test)]
mod capture_tests;
#[cfg(test)]
mod tests;
