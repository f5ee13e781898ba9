//! The plan of a run, of which the prover knows that its calls are those of which the shards are counted.
ghost use Rattle.std.specs.Prelude.{◌≡◌, ◌≤◌, length};
ghost use Rattle.mg_model.specs.Numbers.{plan_calls};

use crate::running::Running;
use plans::Plan;
use std::marker::{Model, PhantomData};

/// The plan of a run. This profile's own.
#[derive(Drop)]
pub struct RunPlan<'a, B: Running> {
    plan: &'a Plan,
    of: PhantomData<B>,
}

impl<'a, B: Running> Model for RunPlan<'a, B> {
    ghost use Rattle.std.specs.Prelude.{◌≡◌, ◌≤◌, length};
    ghost use Rattle.mg_model.specs.Numbers.{plan_calls};
    ghost use Rattle.mg_model.specs.Plans as plans;

    ghost Value = { plans.Plan };

    ghost view = { λ r. r.plan.now };

    ghost invariant = { λ r. (r.plan.now.calls ≡ B.calls) × ((r.plan.now.shards ≡ B.count) × (length r.plan.now.calls ≤ plan_calls)) };
}

impl<'a, B: Running> RunPlan<'a, B> {
    /// The plan of this run, of at most 10,000 calls.
    pub fn new(plan: &'a Plan) -> RunPlan<'a, B>
        requires calls { plan.now.calls ≡ B.calls }
        requires shards { plan.now.shards ≡ B.count }
        requires few { length plan.now.calls ≤ plan_calls }
        ensures { result ≡ plan.now }
    {
        RunPlan {
            plan,
            of: PhantomData,
        }
    }

    /// The plan.
    pub fn plan(&self) -> &'a Plan
        ensures plan { result.now ≡ self.now }
        ensures calls { self.now.calls ≡ B.calls }
        ensures shards { self.now.shards ≡ B.count }
        ensures few { length self.now.calls ≤ plan_calls }
    {
        self.plan
    }
}
