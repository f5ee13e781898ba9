ghost use Rattle.std.specs.Prelude.{◌≡◌, Some, IfSome};
ghost use Rattle.mg_names.specs.Codes.{code_name, code_number, code_numbered};

/// The error code of a failed command (H.248.1 section 7.1.19 and its Annex on error codes, the ones that this gateway
/// answers).
#[derive(Clone, Copy, Debug, PartialEq, Eq)]
pub enum Code {
    /// 411: the transaction refers to an unknown ContextID.
    UnknownContext,
    /// 430: unknown TerminationID.
    UnknownTermination,
    /// 433: the TerminationID is already in a context.
    AlreadyInContext,
    /// 435: the TerminationID is not in the specified context.
    NotInContext,
    /// 500: internal software failure in the media gateway.
    InternalFailure,
    /// 510: insufficient resources.
    InsufficientResources,
}

impl Code {
    /// The number of the code, as H.248.1 gives it.
    pub fn number(self) -> u16
        ensures number { result ≡ code_number self }
        ensures read_back { code_numbered result ≡ Some self }
    {
        match self {
            Code::UnknownContext => 411,
            Code::UnknownTermination => 430,
            Code::AlreadyInContext => 433,
            Code::NotInContext => 435,
            Code::InternalFailure => 500,
            Code::InsufficientResources => 510,
        }
    }

    /// The variant's name.
    pub fn name(self) -> &'static str
        ensures { result.now ≡ code_name self }
    {
        match self {
            Code::UnknownContext => "UnknownContext",
            Code::UnknownTermination => "UnknownTermination",
            Code::AlreadyInContext => "AlreadyInContext",
            Code::NotInContext => "NotInContext",
            Code::InternalFailure => "InternalFailure",
            Code::InsufficientResources => "InsufficientResources",
        }
    }

    /// The code of a number; `None` for a number that this gateway never answers.
    pub fn read(number: u16) -> Option<Code>
        ensures numbered { result ≡ code_numbered number }
        ensures no_other { IfSome result (λ code. code_number code ≡ number) }
    {
        match number {
            411 => Some(Code::UnknownContext),
            430 => Some(Code::UnknownTermination),
            433 => Some(Code::AlreadyInContext),
            435 => Some(Code::NotInContext),
            500 => Some(Code::InternalFailure),
            510 => Some(Code::InsufficientResources),
            _ => None,
        }
    }
}
