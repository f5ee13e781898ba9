//! Why an agent doesn't take a step.
ghost use Rattle.std.specs.Prelude.{◌≡◌};
ghost use Rattle.agent.specs.Faults.{number_of, name_of};

use thiserror::Error;

/// Why an agent doesn't take a step; it stays as it was.
#[derive(Clone, Copy, Debug, PartialEq, Eq, Error)]
pub enum PlainFault {
    /// The step can't be taken in this state, or no number is left for the request that it would send (this profile's own).
    #[error("the step is not enabled")]
    NotEnabled,
    /// Memory ran out.
    #[error("out of memory")]
    NoMemory,
}

impl PlainFault {
    /// The fault's number: 1, or 3 where memory ran out.
    pub fn number(&self) -> u8
        ensures { result ≡ number_of self.now }
    {
        match self {
            PlainFault::NotEnabled => 1,
            PlainFault::NoMemory => 3,
        }
    }

    /// The variant's name.
    pub fn name(&self) -> &'static str
        ensures { result.now ≡ name_of self.now }
    {
        match self {
            PlainFault::NotEnabled => "NotEnabled",
            PlainFault::NoMemory => "NoMemory",
        }
    }
}
