//! Why nothing happened on a line.
ghost use Rattle.std.specs.Prelude.{◌≡◌};
ghost use Rattle.line_events.specs.Faults.{number_of, name_of};

use std::alloc::{AllocError, AllocFailed};
use thiserror::Error;

/// Why nothing happened on a line.
#[derive(Clone, Copy, Debug, PartialEq, Eq, Error)]
pub enum LineFault {
    /// The set has no line of this number.
    #[error("no such line")]
    UnknownLine,
    /// What was said to happen can't happen on the line as it is.
    #[error("this cannot happen on the line")]
    CannotHappen,
    /// Memory ran out.
    #[error("out of memory")]
    NoMemory,
}

impl LineFault {
    /// The fault's number, or 0 where memory ran out.
    pub fn number(&self) -> u8
        ensures { result ≡ number_of self.now }
    {
        match self {
            LineFault::NoMemory => 0,
            LineFault::UnknownLine => 1,
            LineFault::CannotHappen => 2,
        }
    }

    /// The variant's name.
    pub fn name(&self) -> &'static str
        ensures { result.now ≡ name_of self.now }
    {
        match self {
            LineFault::NoMemory => "NoMemory",
            LineFault::UnknownLine => "UnknownLine",
            LineFault::CannotHappen => "CannotHappen",
        }
    }
}

impl From<AllocError> for LineFault {
    ghost use Rattle.std.specs.Prelude.{◌≡◌};
    ghost use Rattle.line_events.specs.declared.fault.LineFault.TheVariants.{NoMemory};

    ghost from_gives = { λ _ e. e ≡ NoMemory };

    fn from(_e: AllocError) -> LineFault {
        LineFault::NoMemory
    }
}

impl<T: Drop> From<AllocFailed<T>> for LineFault {
    ghost use Rattle.std.specs.Prelude.{◌≡◌};
    ghost use Rattle.line_events.specs.declared.fault.LineFault.TheVariants.{NoMemory};

    ghost from_gives = { λ _ e. e ≡ NoMemory };

    fn from(_e: AllocFailed<T>) -> LineFault {
        LineFault::NoMemory
    }
}
