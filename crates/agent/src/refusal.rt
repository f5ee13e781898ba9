//! Why a call doesn't take a step.
ghost use Rattle.std.specs.Prelude.{◌≡◌};
ghost use Rattle.agent.specs.Calls.{number_of, name_of};

use thiserror::Error;

/// Why a call doesn't take a step; it is handed back as it was.
#[derive(Clone, Copy, Debug, PartialEq, Eq, Error)]
pub enum Refusal {
    /// The step can't be taken by this call, or no number is left for the request that it would send (this profile's own).
    #[error("the step is not enabled")]
    NotEnabled,
    /// The slot that stands for the call counts another number of events than its transcript has, and the event could happen to both as they are. No call
    /// answers so by itself.
    #[error("the slot of the call counts {slot_count} events")]
    Behind {
        /// How many events of the call its slot counts.
        slot_count: usize,
    },
    /// Memory ran out.
    #[error("out of memory")]
    NoMemory,
}

impl Refusal {
    /// The refusal's number, from 1 to 3.
    pub fn number(&self) -> u8
        ensures { result ≡ number_of self.now }
    {
        match self {
            Refusal::NotEnabled => 1,
            Refusal::Behind { .. } => 2,
            Refusal::NoMemory => 3,
        }
    }

    /// The variant's name.
    pub fn name(&self) -> &'static str
        ensures { result.now ≡ name_of self.now }
    {
        match self {
            Refusal::NotEnabled => "NotEnabled",
            Refusal::Behind { .. } => "Behind",
            Refusal::NoMemory => "NoMemory",
        }
    }
}
