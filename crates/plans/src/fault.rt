//! Why a document is no plan.
ghost use Rattle.std.specs.Prelude.{◌≡◌};
ghost use Rattle.plans.specs.FaultNames.{number_of, name_of};

use thiserror::Error;

/// Why a document is no plan. Where several apply, the one that comes first here is given.
#[derive(Clone, Copy, Debug, PartialEq, Eq, Error)]
pub enum PlanFault {
    /// The bytes are no TOML.
    #[error("no TOML")]
    NotToml,
    /// A key that is unknown or missing, a value of the wrong kind or out of its bounds, a wrong number of lines, a line that is used twice, or a text that is no
    /// step.
    #[error("a bad step, key or value")]
    BadStep,
    /// More than 1,000 steps in a call or more than 16 epochs.
    #[error("too many steps or epochs")]
    TooMany,
}

impl PlanFault {
    /// The fault's number, 1 to 3, in the order of precedence.
    pub fn number(&self) -> u8
        ensures { result ≡ number_of self.now }
    {
        match self {
            PlanFault::NotToml => 1,
            PlanFault::BadStep => 2,
            PlanFault::TooMany => 3,
        }
    }

    /// The variant's name.
    pub fn name(&self) -> &'static str
        ensures { result.now ≡ name_of self.now }
    {
        match self {
            PlanFault::NotToml => "NotToml",
            PlanFault::BadStep => "BadStep",
            PlanFault::TooMany => "TooMany",
        }
    }
}
