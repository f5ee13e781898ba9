//! Why no number is given.
ghost use Rattle.std.specs.Prelude.{◌≡◌};
ghost use Rattle.identifiers.specs.Faults.{number_of, name_of};

use thiserror::Error;

/// Why no number is given.
#[derive(Clone, Copy, Debug, PartialEq, Eq, Error)]
pub enum CreateFault {
    /// Each number of the class is used: what it identifies is there, or was freed and this isn't settled.
    #[error("no identifier is left")]
    Full,
    /// Memory ran out.
    #[error("out of memory")]
    NoMemory,
}

impl CreateFault {
    /// The fault's number, or 0 where memory ran out.
    pub fn number(&self) -> u8
        ensures { result ≡ number_of self.now }
    {
        match self {
            CreateFault::NoMemory => 0,
            CreateFault::Full => 1,
        }
    }

    /// The variant's name.
    pub fn name(&self) -> &'static str
        ensures { result.now ≡ name_of self.now }
    {
        match self {
            CreateFault::NoMemory => "NoMemory",
            CreateFault::Full => "Full",
        }
    }
}
