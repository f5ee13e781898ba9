//! What is counted of the calls of a shard: each step that is taken in it is the plan's next one, and is counted as it is taken.
ghost use Rattle.std.specs.Prelude.{◌≡◌, ◌<◌, ◌≤◌, [], IfOk, IsTrue, OnOk, false, length, true};
ghost use Rattle.mg_model.specs.Numbers.{plan_calls};
ghost use Rattle.planned_calls.specs.Shards.{HasSameOpening};
ghost use Rattle.run_shards.specs.Counting.{AreAtEnd, AreNoneCounted, CountsOne, HasStepsLeft, IsNewCount, RaisesOne, StaysCounted, TakesStep, place_of};
ghost use Rattle.run_shards.specs.PlanSteps.{step_at};

use mg_model::plans::PlanStep;
use planned_calls::{CallCount, PLAN_CALLS, PlannedCall, RunFault, Shard, TakenStep, is_restart};
use plans::Plan;
use std::alloc::{AllocError, Global};

/// What is counted of the calls of a shard of a run. This profile's own.
#[derive(Drop)]
pub struct ShardCount {
    /// What is counted of each call of the plan, by number; of a call of another shard nothing.
    pub counts: Vec<CallCount>,
    /// How many steps of this epoch each has taken.
    pub places: Vec<usize>,
    /// Which epoch it is, from 0.
    pub epoch: usize,
    /// How many of the steps were restarts.
    pub restarts: usize,
    /// How many of them there had been as each epoch ended that is over.
    pub ends: Vec<usize>,
    /// Whether no step met trouble.
    pub is_whole: bool,
}

/// Nothing is counted of so many calls.
fn none_counted(alloc: Global, calls: usize) -> Result<Vec<CallCount>, AllocError>
    ensures all { IfOk result (λ counts. length counts.items ≡ calls) }
    ensures none { IfOk result (λ counts. AreNoneCounted counts.items) }
{
    let mut counts = Vec::new(alloc);
    for _ in 0..calls {
        counts.push(CallCount::new(alloc))?;
    }
    Ok(counts)
}

/// One step more of a call. `Disagree` where there is no such call, or where its steps can't be counted on.
pub(crate) fn raise(places: &mut Vec<usize>, first: u32) -> Result<(), RunFault>
    ensures all { length places.new.items ≡ length places.old.items }
    ensures raised { OnOk result (RaisesOne first places.old.items places.new.items) }
{
    let Some(place) = places.get_mut(first as usize) else {
        return Err(RunFault::Disagree);
    };
    let Some(next) = place.checked_add(1) else {
        return Err(RunFault::Disagree);
    };
    *place = next;
    Ok(())
}

/// Counts a step of a call that came to this. `Disagree` where there is no such call, or where a count ends, and `NoMemory` where memory ran out.
fn count_in(
    counts: &mut Vec<CallCount>,
    first: u32,
    step: &PlanStep,
    told: &TakenStep,
) -> Result<(), RunFault>
    ensures all { length counts.new.items ≡ length counts.old.items }
    ensures counted { OnOk result (CountsOne step.now told.now first counts.old.items counts.new.items) }
{
    match counts.get_mut(first as usize) {
        Some(count) => count.count(step, told),
        None => Err(RunFault::Disagree),
    }
}

impl ShardCount {
    /// Nothing is counted yet of so many calls, in a shard in which nothing happened.
    pub(crate) fn new(
        alloc: Global,
        shard: &Shard<'_>,
        calls: usize,
    ) -> Result<ShardCount, AllocError>
        requires { shard.now.history ≡ [] }
        ensures counted { IfOk result (λ count. IsNewCount calls shard.now count) }
        ensures whole { IfOk result (λ count. count.is_whole ≡ true) }
    {
        shard.keeps_its_run();
        Ok(ShardCount {
            counts: none_counted(alloc, calls)?,
            places: Vec::from_elem(alloc, 0usize, calls)?,
            epoch: 0,
            restarts: 0,
            ends: Vec::new(alloc),
            is_whole: true,
        })
    }

    /// The next step of a call of the plan in this epoch; nothing where there is none.
    pub fn next_step(&self, plan: &Plan, first: u32) -> Option<PlanStep>
        ensures { length self.now.places.items ≡ length plan.now.calls → result ≡ step_at plan.now.calls first self.now.epoch (place_of self.now first) }
    {
        let call = plan.calls().get(first as usize)?;
        let place = self.places.get(first as usize)?;
        let epoch = call.epochs().get(self.epoch)?;
        Some(*epoch.steps().get(*place)?)
    }

    /// Whether each call of the plan that stands in a shard, one of so many, has taken all of its steps of this epoch.
    pub fn is_at_end(&self, plan: &Plan, count: u32, number: u32) -> bool
        requires few { length plan.now.calls ≤ plan_calls }
        requires all { length self.now.places.items ≡ length plan.now.calls }
        requires some { 0 < count }
        ensures yes { IsTrue result → AreAtEnd plan.now.calls count number self.now }
        ensures no { result ≡ false → HasStepsLeft plan.now.calls count number self.now }
    {
        let mut first: u32 = 0;
        for _ in plan.calls() {
            if first % count == number && self.next_step(plan, first).is_some() {
                return false;
            }
            first += 1;
        }
        true
    }

    /// The next step of a call of the plan is taken in its shard, and is counted.
    fn take<'s>(
        &mut self,
        plan: &Plan,
        shard: &mut Shard<'s>,
        planned: PlannedCall<'s>,
    ) -> (PlannedCall<'s>, Result<(), RunFault>)
        ensures opening { HasSameOpening shard.old shard.new }
        ensures counts { length self.new.counts.items ≡ length self.old.counts.items }
        ensures places { length self.new.places.items ≡ length self.old.places.items }
        ensures whole { self.new.is_whole ≡ self.old.is_whole }
        ensures taken { IfOk result.1 (λ _. length self.old.places.items ≡ length plan.now.calls → TakesStep plan.now.calls shard.old self.old shard.new self.new) }
        ensures begun { result.0.log.begun ≡ planned.entry.log.begun }
        ensures place { result.0.log.place ≡ planned.entry.log.place }
    {
        let first = planned.standing.0 % PLAN_CALLS;
        let Some(step) = self.next_step(plan, first) else {
            return (planned, Err(RunFault::Disagree));
        };
        if is_restart(&step) {
            return (planned, Err(RunFault::Disagree));
        }
        shard.identifiers_are_left();
        let (planned, done) = planned.step(shard, &step);
        match done {
            Ok(told) => {
                let counted = self.count(first, &step, &told);
                (planned, counted)
            }
            Err(fault) => (planned, Err(fault)),
        }
    }

    /// Counts a step of a call that came to this, in this epoch.
    fn count(&mut self, first: u32, step: &PlanStep, told: &TakenStep) -> Result<(), RunFault>
        ensures all_counts { length self.new.counts.items ≡ length self.old.counts.items }
        ensures all_places { length self.new.places.items ≡ length self.old.places.items }
        ensures whole { self.new.is_whole ≡ self.old.is_whole }
        ensures epoch { self.new.epoch ≡ self.old.epoch }
        ensures restarts { self.new.restarts ≡ self.old.restarts }
        ensures ends { self.new.ends ≡ self.old.ends }
        ensures counted { OnOk result (CountsOne step.now told.now first self.old.counts.items self.new.counts.items) }
        ensures raised { OnOk result (RaisesOne first self.old.places.items self.new.places.items) }
    {
        count_in(&mut self.counts, first, step, told)?;
        raise(&mut self.places, first)
    }

    /// The next step of a call of the plan, which is no restart, is taken in its shard, as `PlannedCall::step` says, and is counted. `Disagree` also where the plan
    /// has no such step, or where a count ends. Where it meets trouble, the count is whole no more.
    pub(crate) fn step<'s>(
        &mut self,
        plan: &Plan,
        shard: &mut Shard<'s>,
        planned: PlannedCall<'s>,
    ) -> (PlannedCall<'s>, Result<(), RunFault>)
        ensures counted { StaysCounted plan.now.calls shard.old self.old shard.new self.new }
        ensures begun { result.0.log.begun ≡ planned.entry.log.begun }
        ensures place { result.0.log.place ≡ planned.entry.log.place }
    {
        let (planned, done) = self.take(plan, shard, planned);
        match done {
            Ok(()) => (planned, Ok(())),
            Err(fault) => {
                self.is_whole = false;
                (planned, Err(fault))
            }
        }
    }
}
