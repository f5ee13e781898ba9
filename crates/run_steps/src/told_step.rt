//! A step of a plan as it is told.
use mg_model::plans::PlanStep;
use mg_names::identifiers::CallNo;
use taken_steps::{Came, Position, Shown};

/// A step of a call of a plan as it is told. This profile's own.
#[derive(Drop)]
pub struct ToldStep {
    /// The call that it is counted with: one that it began, or else the one that stood.
    pub call: CallNo,
    /// The step.
    pub step: PlanStep,
    /// What it came to.
    pub came: Came,
    /// Where the call was before it.
    pub before: Position,
    /// Where the call is after it.
    pub after: Position,
    /// What was sent at it, and what plays.
    pub shown: Shown,
}
