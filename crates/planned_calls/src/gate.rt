//! What is asked before each step of a call.
use std::sync::Wait;

/// Who lets each step of a run pass, and may keep the calling thread for as long as it likes. It is called with no lock held. This profile's own.
pub trait Gate: Sync {
    ghost use Rattle.std.specs.Prelude.{ℕ};

    /// What is known of a step of a call once this gate was asked: a worker has to know it before it takes the step, and `pass` alone says it of a gate that
    /// isn't known.
    ghost was_asked: { ℕ → ℕ → Type 0 };

    /// Before a step of a call of the plan, the calls that begin within it included: steps count from 0, over all epochs.
    fn pass<R: Wait>(&self, rt: &R, call: u32, step: usize)
        ensures { was_asked call step };
}

/// The gate that lets every step pass at once.
#[derive(Clone, Copy, Default)]
pub struct NoGate;

impl Gate for NoGate {
    ghost was_asked = { λ call step. Unit {0} };

    fn pass<R: Wait>(&self, _rt: &R, _call: u32, _step: usize) {}
}
