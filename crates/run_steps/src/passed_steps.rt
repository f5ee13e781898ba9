//! The order in which a run on one worker takes the steps of its calls, as its gate lets them pass.
use mg_model::plans::PlanStep;
use mg_names::identifiers::Assoc;
use plans::{Plan, PlanCall};
use run_account::{Gate, RunFault, is_restart};
use std::alloc::{AllocError, Global};
use std::sync::{Mutex, Wait};

/// A step that passed: of which call of the plan it is, and its place among the call's steps over all epochs.
#[derive(Clone, Copy)]
struct Passed {
    call: u32,
    step: usize,
}

/// The gate that lets every step pass at once, and keeps in which order they did. One worker takes a step as soon as it passed, and no other before. This
/// profile's own.
#[derive(Drop)]
pub struct PassedSteps {
    passed: Mutex<Vec<Passed>>,
}

impl Gate for PassedSteps {
    ghost was_asked = { λ call step. Unit {0} };

    fn pass<R: Wait>(&self, rt: &R, call: u32, step: usize) {
        let mut passed = self.passed.lock(rt);
        // Where there is no room one is left out, and its call has fewer marks than steps.
        let _ = passed.push(Passed { call, step });
    }
}

/// The epoch of the step at a place, and the step.
fn step_at(call: &PlanCall, place: usize) -> Option<(usize, PlanStep)> {
    let mut left = place;
    for (number, epoch) in call.epochs().iter().enumerate() {
        match epoch.steps().get(left) {
            Some(step) => return Some((number, *step)),
            None => left = left.saturating_sub(epoch.steps().len()),
        }
    }
    None
}

/// A list of marks for each call of a plan.
fn unmarked(alloc: Global, plan: &Plan) -> Result<Vec<Vec<Assoc>>, AllocError> {
    let mut marks = Vec::new(alloc);
    for _ in plan.calls() {
        marks.push(Vec::new(alloc))?;
    }
    Ok(marks)
}

/// How far a run is: its epoch, and the association of its gateways.
#[derive(Clone, Copy)]
struct Clock {
    epoch: usize,
    association: u64,
}

impl Clock {
    /// The association at a step of an epoch; a restart is marked with the one that it leads to.
    fn at(&mut self, epoch: usize, step: &PlanStep) -> Assoc {
        let ended = epoch.saturating_sub(self.epoch) as u64;
        self.epoch = epoch;
        self.association = self.association.saturating_add(ended);
        if is_restart(step) {
            self.association = self.association.saturating_add(1);
        }
        Assoc(self.association)
    }
}

impl PassedSteps {
    /// No step has passed. It takes no memory.
    pub fn new(alloc: Global) -> PassedSteps {
        PassedSteps {
            passed: Mutex::new(Vec::new(alloc)),
        }
    }

    /// The association of the gateways at each step of each call of the plan, over all epochs. `Disagree` where another plan was run; `AllocError` where memory
    /// ran out.
    pub fn marks(self, alloc: Global, plan: &Plan) -> Result<Vec<Vec<Assoc>>, RunFault> {
        let passed = self.passed.into_inner();
        let mut marks = unmarked(alloc, plan)?;
        let mut clock = Clock {
            epoch: 0,
            association: 1,
        };
        for one in passed.as_slice() {
            let Some(call) = plan.calls().get(one.call as usize) else {
                return Err(RunFault::Disagree);
            };
            let Some((epoch, step)) = step_at(call, one.step) else {
                return Err(RunFault::Disagree);
            };
            let Some(own) = marks.get_mut(one.call as usize) else {
                return Err(RunFault::Disagree);
            };
            own.push(clock.at(epoch, &step))?;
        }
        Ok(marks)
    }
}
