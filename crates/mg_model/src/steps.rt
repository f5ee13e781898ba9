use mg_names::kinds::Kind;
use mg_names::slots::Slot;

/// The name of a step of a configuration.
#[derive(Clone, Copy)]
pub enum StepName {
    /// The gateway refuses the command at this place of the built request, after it did those before it.
    Refuse(usize),
    /// The gateway executes the whole request.
    Execute,
    /// The reply is taken.
    Reply,
    /// A note of a line is accepted.
    Observe {
        /// The line.
        line: Slot,
        /// What it reports.
        kind: Kind,
    },
    /// The timer ends.
    Timer,
}
