//! A plan with what is counted over all of its calls: how many epochs it has, and how many of its steps are restarts. It is counted once, and not for each call.
ghost use Rattle.std.specs.Prelude.{◌≡◌, ◌∷◌, ◌<◌, [], IfNone, IfSome};
ghost use Rattle.mg_model.specs.Plans as plans;
ghost use Rattle.planned_calls.specs.Disagreements.{last_count};

use mg_model::plans::PlanStep;
use plans::{Plan, PlanCall};
use std::marker::Model;

/// A plan, its number of epochs, and its number of steps that are restarts.
#[derive(Drop)]
pub struct PlanTotals<'a> {
    plan: &'a Plan,
    epochs: usize,
    restarts: usize,
}

impl<'a> Model for PlanTotals<'a> {
    ghost use Rattle.std.specs.Prelude.{◌≡◌};
    ghost use Rattle.mg_model.specs.Plans as plans;

    ghost Value = { plans.Plan };

    ghost view = { λ m. m.plan.now };

    ghost invariant = { λ m. (m.epochs ≡ plans.epochs_of m.plan.now.calls) × (m.restarts ≡ plans.restarts_of_all m.plan.now.calls) };
}

/// As many epochs as the plan's longest call has.
pub fn epochs_of(plan: &Plan) -> usize
    ensures { result ≡ plans.epochs_of plan.now.calls }
{
    let mut most = 0;
    for call in plan.calls() {
        most = most.max(call.epochs().len());
    }
    most
}

/// 1 for a restart, and 0 for any other step.
fn restarts_of(step: &PlanStep) -> usize
    ensures { result ≡ plans.restarts_among (step.now ∷ []) }
{
    match step {
        PlanStep::Restarts => 1,
        _ => 0,
    }
}

/// How many of these steps are restarts.
fn restarts_among(steps: &[PlanStep]) -> Option<usize>
    ensures counted { IfSome result (λ restarts. restarts ≡ plans.restarts_among steps.now) }
    ensures none { IfNone result (last_count < plans.restarts_among steps.now) }
{
    let mut restarts: usize = 0;
    for step in steps {
        restarts = restarts.checked_add(restarts_of(step))?;
    }
    Some(restarts)
}

/// How many steps of a call are restarts.
fn restarts_asked(call: &PlanCall) -> Option<usize>
    ensures counted { IfSome result (λ restarts. restarts ≡ plans.restarts_asked call.now.epochs) }
    ensures none { IfNone result (last_count < plans.restarts_asked call.now.epochs) }
{
    let mut restarts: usize = 0;
    for epoch in call.epochs() {
        restarts = restarts.checked_add(restarts_among(epoch.steps())?)?;
    }
    Some(restarts)
}

/// How many steps of all calls are restarts.
fn restarts_of_all(plan: &Plan) -> Option<usize>
    ensures counted { IfSome result (λ restarts. restarts ≡ plans.restarts_of_all plan.now.calls) }
    ensures none { IfNone result (last_count < plans.restarts_of_all plan.now.calls) }
{
    let mut restarts: usize = 0;
    for call in plan.calls() {
        restarts = restarts.checked_add(restarts_asked(call)?)?;
    }
    Some(restarts)
}

impl<'a> PlanTotals<'a> {
    /// A plan, totals. Nothing, where it has more restarts than can be counted.
    pub fn new(plan: &'a Plan) -> Option<PlanTotals<'a>>
        ensures totals { IfSome result (λ totals. totals ≡ plan.now) }
        ensures none { IfNone result (last_count < plans.restarts_of_all plan.now.calls) }
    {
        let restarts = restarts_of_all(plan)?;
        Some(PlanTotals {
            plan,
            epochs: epochs_of(plan),
            restarts,
        })
    }

    /// The plan.
    pub fn plan(&self) -> &'a Plan
        ensures { result.now ≡ self.now }
    {
        self.plan
    }

    /// As many epochs as its longest call has.
    pub fn epochs(&self) -> usize
        ensures { result ≡ plans.epochs_of self.now.calls }
    {
        self.epochs
    }

    /// How many steps of all its calls are restarts.
    pub fn restarts(&self) -> usize
        ensures { result ≡ plans.restarts_of_all self.now.calls }
    {
        self.restarts
    }
}
