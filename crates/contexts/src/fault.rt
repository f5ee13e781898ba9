//! Why a command is not executed.
ghost use Rattle.std.specs.Prelude.{◌≡◌};
ghost use Rattle.contexts.specs.Faults.{fault_name, fault_number};

use mg_names::codes::Code;
use thiserror::Error;

/// Why a command is not executed; the board stays as it was.
#[derive(Clone, Copy, Debug, PartialEq, Eq, Error)]
pub enum ExecFault {
    /// It is refused with a code.
    #[error("refused")]
    Code(Code),
    /// Memory ran out.
    #[error("out of memory")]
    NoMemory,
}

impl ExecFault {
    /// The number of the code, or 0 where memory ran out.
    pub fn number(&self) -> u16
        ensures { result ≡ fault_number self.now }
    {
        match *self {
            ExecFault::Code(code) => code.number(),
            ExecFault::NoMemory => 0,
        }
    }

    /// The name of the code, or `NoMemory`.
    pub fn name(&self) -> &'static str
        ensures { result.now ≡ fault_name self.now }
    {
        match *self {
            ExecFault::Code(code) => code.name(),
            ExecFault::NoMemory => "NoMemory",
        }
    }
}
