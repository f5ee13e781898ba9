//! Why a document is not read.
use std::alloc::{AllocError, AllocFailed};
use std::error::Error;
use std::fmt;

/// Why a document is not read. The fault alone says something of the document: want of memory may stand in place of any answer. This profile's own.
#[derive(Clone, Copy, Debug)]
pub enum Unread<F> {
    /// The document has this fault.
    Fault(F),
    /// There was no memory to read it.
    NoMemory,
}

impl<F> From<AllocError> for Unread<F> {
    ghost use Rattle.std.specs.Prelude.{◌≡◌};
    ghost use Rattle.typed_values.specs.declared.unread.Unread.TheVariants.{NoMemory};

    ghost from_gives = { λ _ unread. unread ≡ NoMemory };

    fn from(_error: AllocError) -> Unread<F> {
        Unread::NoMemory
    }
}

impl<F, T: Drop> From<AllocFailed<T>> for Unread<F> {
    ghost use Rattle.std.specs.Prelude.{◌≡◌};
    ghost use Rattle.typed_values.specs.declared.unread.Unread.TheVariants.{NoMemory};

    ghost from_gives = { λ _ unread. unread ≡ NoMemory };

    fn from(_error: AllocFailed<T>) -> Unread<F> {
        Unread::NoMemory
    }
}

impl<F: fmt::Display> fmt::Display for Unread<F> {
    fn fmt<W: fmt::Write>(&self, f: &mut fmt::Formatter<W>) -> fmt::Result {
        match self {
            Unread::Fault(fault) => write!(f, "{fault}"),
            Unread::NoMemory => write!(f, "out of memory"),
        }
    }
}

impl<F: Error> Error for Unread<F> {}
