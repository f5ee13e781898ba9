//! Why a run has no outcome.
ghost use Rattle.std.specs.Prelude.{◌≡◌};
ghost use Rattle.planned_calls.specs.FaultNames.{name_of, number_of};

use shards::RestartFault;
use std::alloc::{AllocError, AllocFailed};
use thiserror::Error;

/// Why a run has no outcome. Each has a number, by which `mgcall run` tells it.
#[derive(Clone, Copy, Debug, PartialEq, Eq, Error)]
pub enum RunFault {
    /// 1: not 1 to 64 workers.
    #[error("not 1 to 64 workers")]
    BadWorkers,
    /// 2: the plan has more than 10,000 calls.
    #[error("more than 10,000 calls")]
    TooManyCalls,
    /// 3: what the shards keep isn't what the calls went through.
    #[error("the shards and the calls disagree")]
    Disagree,
    /// 4: memory ran out.
    #[error("out of memory")]
    NoMemory,
}

impl RunFault {
    /// The fault's number, from 1, by which the first of several that apply is answered.
    pub fn number(&self) -> u8
        ensures { result ≡ number_of self.now }
    {
        match self {
            RunFault::BadWorkers => 1,
            RunFault::TooManyCalls => 2,
            RunFault::Disagree => 3,
            RunFault::NoMemory => 4,
        }
    }

    /// The variant's name.
    pub fn name(&self) -> &'static str
        ensures { result.now ≡ name_of self.now }
    {
        match self {
            RunFault::BadWorkers => "BadWorkers",
            RunFault::TooManyCalls => "TooManyCalls",
            RunFault::Disagree => "Disagree",
            RunFault::NoMemory => "NoMemory",
        }
    }
}

impl From<AllocError> for RunFault {
    ghost use Rattle.std.specs.Prelude.{◌≡◌};
    ghost use Rattle.planned_calls.specs.declared.fault.RunFault.TheVariants.{NoMemory};

    ghost from_gives = { λ _ fault. fault ≡ NoMemory };

    fn from(_: AllocError) -> RunFault {
        RunFault::NoMemory
    }
}

impl<T: Drop> From<AllocFailed<T>> for RunFault {
    ghost use Rattle.std.specs.Prelude.{◌≡◌};
    ghost use Rattle.planned_calls.specs.declared.fault.RunFault.TheVariants.{NoMemory};

    ghost from_gives = { λ _ fault. fault ≡ NoMemory };

    fn from(_: AllocFailed<T>) -> RunFault {
        RunFault::NoMemory
    }
}

/// That there is no association left can't come of a plan, which has too few restarts for it.
impl From<RestartFault> for RunFault {
    ghost use Rattle.std.specs.Prelude.{◌≡◌};
    ghost use Rattle.planned_calls.specs.FaultNames.{of_restart};

    ghost from_gives = { λ why fault. fault ≡ of_restart why };

    fn from(fault: RestartFault) -> RunFault {
        match fault {
            RestartFault::NoMemory => RunFault::NoMemory,
            RestartFault::CannotHappen => RunFault::Disagree,
        }
    }
}
