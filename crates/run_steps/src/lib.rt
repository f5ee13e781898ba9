//! What each step of a plan came to in its run: whether its event happened or it was idle, and why, with where the call was before and after it and what was
//! sent. These are the facts of which a run is told step by step.
//!
//! The way of a call: the run passes its steps at a gate that keeps their order (`passed_steps`), which tells between which of its steps the restarts of other
//! calls were. Its steps are taken once more (`telling`, over `taken_steps`) with the call alone on a gateway of its own, and the restarts where the run had
//! them. A second gateway goes along and shows what was sent and what plays (`showing`, over a `Scene`). At the end all of it has to be what the run's own
//! history and report have (`call_steps`), which is merged once for all calls (`merged_outcome`).
#![tactic(auto)]

pub mod call_steps;
mod merged_outcome;
mod passed_steps;
mod showing;
mod telling;
mod told_step;

pub use merged_outcome::MergedOutcome;
pub use passed_steps::PassedSteps;
pub use taken_steps::{Came, Idle, Position};
pub use told_step::ToldStep;
