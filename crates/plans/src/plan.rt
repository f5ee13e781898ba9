//! A plan, its calls and their epochs, and the limits of plans.
ghost use Rattle.std.specs.Prelude.{◌≡◌, map, nat_lt};
ghost use Rattle.std.specs.List.{list_any};
ghost use Rattle.plans.specs.PlanValue.{is_too_long, is_too_large, steps_of};

use mg_model::plans::PlanStep;
use mg_names::identifiers::LineNo;
use std::marker::Model;

/// How many epochs a call may have.
const MOST_EPOCHS: usize = 16;

/// How many steps a call may have, over all its epochs.
const MOST_STEPS: usize = 1_000;

/// The steps of a call in one epoch: all calls end an epoch before the gateway restarts, and then the next begins. This profile's own.
#[derive(Drop)]
pub struct Epoch {
    pub(crate) steps: Vec<PlanStep>,
}

impl Model for Epoch {
    ghost use Rattle.std.specs.Prelude.{List};
    ghost use Rattle.mg_model.specs.declared.plans.PlanStep.{PlanStep};

    ghost Value = { List PlanStep };

    ghost view = { λ e. e.steps.items };
}

impl Epoch {
    /// The steps, in their order.
    pub fn steps(&self) -> &[PlanStep]
        ensures { result.now ≡ self.now }
    {
        self.steps.as_slice()
    }
}

/// A call of a plan: the line of the gateway for each line of the script, and the call's epochs. This profile's own.
#[derive(Drop)]
pub struct PlanCall {
    pub(crate) lines: Vec<LineNo>,
    pub(crate) epochs: Vec<Epoch>,
}

impl Model for PlanCall {
    ghost use Rattle.std.specs.Prelude.{map};
    ghost use Rattle.mg_model.specs.Plans as plans;

    ghost Value = { plans.PlanCall };

    ghost view = { λ c. record { lines = map (λ l. l.0) c.lines.items; epochs = c.epochs.items } };
}

impl PlanCall {
    /// The lines of the gateway, in the order of the script's lines.
    pub fn lines(&self) -> &[LineNo]
        ensures { map (λ l. l.0) result.now ≡ self.now.lines }
    {
        self.lines.as_slice()
    }

    /// The epochs, in their order.
    pub fn epochs(&self) -> &[Epoch]
        ensures { result.now ≡ self.now.epochs }
    {
        self.epochs.as_slice()
    }

    /// Whether it has more epochs or steps than a call may have.
    fn is_too_long(&self) -> bool
        ensures { result ≡ is_too_long self.now }
    {
        self.epochs.len() > MOST_EPOCHS || has_more_steps(self.epochs.as_slice())
    }
}

/// Whether these epochs have more steps than a call may have.
fn has_more_steps(epochs: &[Epoch]) -> bool
    ensures { result ≡ nat_lt 1000 (steps_of epochs.now) }
{
    let mut left = MOST_STEPS;
    for epoch in epochs {
        if epoch.steps().len() > left {
            return true;
        }
        left -= epoch.steps().len();
    }
    false
}

/// A plan of a run. A line is of one call, and once. This profile's own.
#[derive(Drop)]
pub struct Plan {
    pub(crate) calls: Vec<PlanCall>,
    pub(crate) shards: u8,
}

impl Model for Plan {
    ghost use Rattle.mg_model.specs.Plans as plans;

    ghost Value = { plans.Plan };

    ghost view = { λ p. record { calls = p.calls.items; shards = p.shards } };
}

impl Plan {
    /// The calls, numbered from 0.
    pub fn calls(&self) -> &[PlanCall]
        ensures { result.now ≡ self.now.calls }
    {
        self.calls.as_slice()
    }

    /// In how many shards the calls are run, 1 to 16.
    pub fn shards(&self) -> u8
        ensures { result ≡ self.now.shards }
    {
        self.shards
    }

    /// Whether a call of it has more epochs or steps than a call may have.
    pub(crate) fn is_too_large(&self) -> bool
        ensures { result ≡ is_too_large self.now }
    {
        self.calls.iter().any(|call| call.is_too_long())
    }
}
