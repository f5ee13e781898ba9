//! Why a gateway doesn't do something.
ghost use Rattle.std.specs.Prelude.{◌≡◌};
ghost use Rattle.gateway.specs.Faults.{number_of, name_of, begin_number_of, begin_name_of};

use thiserror::Error;

/// Why a call isn't opened.
#[derive(Clone, Copy, Debug, PartialEq, Eq, Error)]
pub enum OpenFault {
    /// The gateway has no line of this number.
    #[error("no such line")]
    UnknownLine,
    /// The call was opened already, or a line is named twice, is held by a call, or isn't in the null context.
    #[error("the call or a line is taken")]
    Taken,
    /// Memory ran out.
    #[error("out of memory")]
    NoMemory,
}

impl OpenFault {
    /// The fault's number, or 0 where memory ran out.
    pub fn number(&self) -> u8
        ensures { result ≡ number_of self.now }
    {
        match self {
            OpenFault::NoMemory => 0,
            OpenFault::UnknownLine => 1,
            OpenFault::Taken => 2,
        }
    }

    /// The variant's name.
    pub fn name(&self) -> &'static str
        ensures { result.now ≡ name_of self.now }
    {
        match self {
            OpenFault::NoMemory => "NoMemory",
            OpenFault::UnknownLine => "UnknownLine",
            OpenFault::Taken => "Taken",
        }
    }
}

/// Why a call doesn't begin on the lines of another.
#[derive(Clone, Copy, Debug, PartialEq, Eq, Error)]
pub enum BeginFault {
    /// The old call isn't open.
    #[error("no such call")]
    UnknownCall,
    /// A call of the new number was opened already.
    #[error("the call is taken")]
    Taken,
    /// A line of the old call isn't as at the opening of a call, or an ephemeral exists that the old call created.
    #[error("the old call has not ended")]
    CannotHappen,
    /// Memory ran out.
    #[error("out of memory")]
    NoMemory,
}

impl BeginFault {
    /// The fault's number, or 0 where memory ran out.
    pub fn number(&self) -> u8
        ensures { result ≡ begin_number_of self.now }
    {
        match self {
            BeginFault::NoMemory => 0,
            BeginFault::UnknownCall => 1,
            BeginFault::Taken => 2,
            BeginFault::CannotHappen => 3,
        }
    }

    /// The variant's name.
    pub fn name(&self) -> &'static str
        ensures { result.now ≡ begin_name_of self.now }
    {
        match self {
            BeginFault::NoMemory => "NoMemory",
            BeginFault::UnknownCall => "UnknownCall",
            BeginFault::Taken => "Taken",
            BeginFault::CannotHappen => "CannotHappen",
        }
    }
}

/// What was said to happen can't happen on the gateway as it is.
#[derive(Clone, Copy, Debug, PartialEq, Eq, Error)]
#[error("this cannot happen")]
pub struct CannotHappen;
