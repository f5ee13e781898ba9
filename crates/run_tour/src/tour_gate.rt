//! The gate of a tour: one type for all that the words ask for, so that the runner is proved for one.
use crate::meeting::Meeting;
use crate::stopping::Stopping;
use runner::Gate;
use std::sync::Wait;

/// What is done before each step.
#[derive(Drop)]
pub(crate) enum TourGate<'r> {
    /// Nothing.
    Open,
    /// Calls 1 and 2 wait for each other.
    Meeting(Meeting),
    /// Workers are stopped at random.
    Stopping(Stopping<'r>),
}

impl Gate for TourGate<'_> {
    ghost was_asked = { λ call step. Unit {0} };

    fn pass<R: Wait>(&self, _rt: &R, call: u32, step: usize) {
        match self {
            TourGate::Open => {}
            TourGate::Meeting(meeting) => meeting.pass(call, step),
            TourGate::Stopping(stopping) => stopping.pass(call, step),
        }
    }
}
