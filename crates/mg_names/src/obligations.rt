ghost use Rattle.std.specs.Prelude.{◌≡◌};
ghost use Rattle.mg_names.specs.Obligations.{obligation_name, obligation_number};

/// An obligation of a certificate. Where none is broken, every run of the script is good. This profile's own.
#[derive(Clone, Copy)]
pub enum Obligation {
    /// The configuration that a call opens in is in an entry.
    OpeningCovered,
    /// The result of each step of each point is in an entry.
    StepsCovered,
    /// Lines that are joined are marked as talking in the point's state.
    JoinedMarked,
    /// A call that rests in an end state has its lines silent, in the null context and armed for off-hook, and no ephemeral.
    EndedCleared,
    /// While a request is sent, the names that its state creates are not bound.
    CreatedUnbound,
    /// The configuration that a call has once it heard of a restart is in an entry.
    ResetCovered,
    /// While a request is sent, and at rest, no context that is bound has been deleted, and no Remote names what has been destroyed.
    NamesLive,
}

impl Obligation {
    /// The number by which the answer `no` names it, 1 to 7.
    pub fn number(self) -> u8
        ensures { result ≡ obligation_number self }
    {
        match self {
            Obligation::OpeningCovered => 1,
            Obligation::StepsCovered => 2,
            Obligation::JoinedMarked => 3,
            Obligation::EndedCleared => 4,
            Obligation::CreatedUnbound => 5,
            Obligation::ResetCovered => 6,
            Obligation::NamesLive => 7,
        }
    }

    /// The variant's name.
    pub fn name(self) -> &'static str
        ensures { result.now ≡ obligation_name self }
    {
        match self {
            Obligation::OpeningCovered => "OpeningCovered",
            Obligation::StepsCovered => "StepsCovered",
            Obligation::JoinedMarked => "JoinedMarked",
            Obligation::EndedCleared => "EndedCleared",
            Obligation::CreatedUnbound => "CreatedUnbound",
            Obligation::ResetCovered => "ResetCovered",
            Obligation::NamesLive => "NamesLive",
        }
    }
}
