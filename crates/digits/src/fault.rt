//! Why a text is no digit map.
ghost use Rattle.std.specs.Prelude.{◌≡◌};
ghost use Rattle.digits.specs.Faults.{number_of, name_of};

use std::alloc::{AllocError, AllocFailed};
use thiserror::Error;

/// Why a text is no digit map. A place counts the bytes of the text as it was given, from 0.
#[derive(Clone, Copy, Debug, PartialEq, Eq, Error)]
pub enum MapFault {
    /// The text, or one of its alternatives, has nothing in it.
    #[error("an alternative is empty")]
    Empty,
    /// A byte that no position begins with.
    #[error("no symbol at byte {at}")]
    BadSymbol { at: usize },
    /// A range that has no end, has nothing in it, falls, or has a byte that ranges don't have.
    #[error("no range at byte {at}")]
    BadRange { at: usize },
    /// More than 16 alternatives, or more than 16 positions in one: this profile's own limit.
    #[error("more than 16 alternatives or positions")]
    TooLong,
    /// Memory ran out.
    #[error("out of memory")]
    NoMemory,
}

impl MapFault {
    /// The fault's number in the order of precedence, or 0 for want of memory.
    pub fn number(&self) -> u8
        ensures { result ≡ number_of self.now }
    {
        match self {
            MapFault::NoMemory => 0,
            MapFault::Empty => 1,
            MapFault::BadSymbol { .. } => 2,
            MapFault::BadRange { .. } => 3,
            MapFault::TooLong => 4,
        }
    }

    /// The variant's name.
    pub fn name(&self) -> &'static str
        ensures { result.now ≡ name_of self.now }
    {
        match self {
            MapFault::NoMemory => "NoMemory",
            MapFault::Empty => "Empty",
            MapFault::BadSymbol { .. } => "BadSymbol",
            MapFault::BadRange { .. } => "BadRange",
            MapFault::TooLong => "TooLong",
        }
    }
}

impl From<AllocError> for MapFault {
    ghost use Rattle.std.specs.Prelude.{◌≡◌};
    ghost use Rattle.digits.specs.declared.fault.MapFault.TheVariants.{NoMemory};

    ghost from_gives = { λ _ e. e ≡ NoMemory };

    fn from(_e: AllocError) -> MapFault {
        MapFault::NoMemory
    }
}

impl<T: Drop> From<AllocFailed<T>> for MapFault {
    ghost use Rattle.std.specs.Prelude.{◌≡◌};
    ghost use Rattle.digits.specs.declared.fault.MapFault.TheVariants.{NoMemory};

    ghost from_gives = { λ _ e. e ≡ NoMemory };

    fn from(_e: AllocFailed<T>) -> MapFault {
        MapFault::NoMemory
    }
}
