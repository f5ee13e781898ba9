//! Why a shard doesn't open, and why it doesn't restart.
use thiserror::Error;

/// Why a shard doesn't open (this profile's own).
#[derive(Clone, Copy, Debug, PartialEq, Eq, Error)]
pub enum OpenFault {
    /// A call has another number of lines than the script.
    #[error("a call has another number of lines than the script")]
    WrongLines,
    /// A number or a line is of two calls, or a line twice of one.
    #[error("a number or a line is of two calls")]
    Taken,
    /// Memory ran out.
    #[error("out of memory")]
    NoMemory,
}

/// Why a shard doesn't restart; it stays as it was.
#[derive(Clone, Copy, Debug, PartialEq, Eq, Error)]
pub enum RestartFault {
    /// It is in the last association (this profile's own).
    #[error("there is no association after the last one")]
    CannotHappen,
    /// Memory ran out.
    #[error("out of memory")]
    NoMemory,
}
