//! The lists of plain numbers, under the names of their use.
use crate::Items;

pub type Bytes = Items<u8>;

/// Words of 32 bits.
pub type Bytes32 = Items<u32>;

/// Words of 64 bits.
pub type WordList = Items<u64>;

/// Numbers of calls, or of bytes.
pub type CountList = Items<u64>;
