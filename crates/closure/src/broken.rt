//! The obligation of a point that is broken first.
use mg_model::steps::StepName;

/// The obligation of a configuration that is broken first.
#[derive(Clone, Copy)]
pub(crate) enum Broken {
    /// Lines are joined that the state doesn't mark.
    JoinedMarked,
    /// A call has ended, and is not cleared.
    EndedCleared,
    /// A name that the state creates is bound.
    CreatedUnbound,
    /// A name stands for what has been deleted or destroyed.
    NamesLive,
    /// The result of this step is in no entry.
    StepsCovered(StepName),
}

/// A point of an entry that breaks an obligation.
#[derive(Clone, Copy)]
pub(crate) struct Found {
    /// Its number.
    pub(crate) number: u32,
    /// The obligation that it breaks first.
    pub(crate) broken: Broken,
}
