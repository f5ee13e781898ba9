//! Why a table of terminations does not grow.
ghost use Rattle.std.specs.Prelude.{◌≡◌};
ghost use Rattle.terminations.specs.LineFaults.{line_number, line_name};

use thiserror::Error;

/// Why a line is not added.
#[derive(Clone, Copy, Debug, PartialEq, Eq, Error)]
pub enum AddLineFault {
    /// The line is there.
    #[error("the line is there")]
    Known,
    /// Memory ran out.
    #[error("out of memory")]
    NoMemory,
}

impl AddLineFault {
    /// The fault's number, or 0 where memory ran out.
    pub fn number(&self) -> u8
        ensures { result ≡ line_number self.now }
    {
        match self {
            AddLineFault::NoMemory => 0,
            AddLineFault::Known => 1,
        }
    }

    /// The variant's name.
    pub fn name(&self) -> &'static str
        ensures { result.now ≡ line_name self.now }
    {
        match self {
            AddLineFault::NoMemory => "NoMemory",
            AddLineFault::Known => "Known",
        }
    }
}
