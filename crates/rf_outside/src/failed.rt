use thiserror::Error;

/// A read or a write failed; the count of faults of its source or sink rose.
#[derive(Clone, Copy, Debug, PartialEq, Eq, Error)]
#[error("a read or a write failed")]
pub struct Failed;

/// Why a source wasn't read to its end.
#[derive(Clone, Copy, Debug, PartialEq, Eq, Error)]
pub enum ReadAllFault {
    #[error("a read failed")]
    Failed,
    /// More bytes than the limit were read.
    #[error("more bytes came than the limit allows")]
    TooLong,
    #[error("out of memory")]
    Memory,
}
