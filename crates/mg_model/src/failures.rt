//! Why a command of a request fails, and where.
ghost use Rattle.std.specs.Prelude.{◌≡◌};
ghost use Rattle.mg_model.specs.Failures.{code_of};

use mg_names::codes::Code;

/// Why a gateway may refuse a command that is legal (H.248.1, its Annex on error codes).
#[derive(Clone, Copy, PartialEq, Eq)]
pub enum Refusal {
    /// 500: internal software failure in the media gateway.
    InternalFailure,
    /// 510: insufficient resources.
    InsufficientResources,
}

impl Refusal {
    /// The code that the gateway answers.
    pub fn code(self) -> Code
        ensures { result ≡ code_of self }
    {
        match self {
            Refusal::InternalFailure => Code::InternalFailure,
            Refusal::InsufficientResources => Code::InsufficientResources,
        }
    }
}

/// A refusal that is chosen for one command of a request. A place past the last command refuses nothing (this profile's own).
#[derive(Clone, Copy, PartialEq, Eq)]
pub struct ChosenRefusal {
    /// The place of the command in its request, from 0.
    pub place: u32,
    /// Which refusal.
    pub refusal: Refusal,
}

/// The command at which a request stopped.
#[derive(Clone, Copy)]
pub struct Failure {
    /// The place of the command in its request, from 0.
    pub place: usize,
    /// Its code.
    pub code: Code,
}
