//! The restarts of a shard, as they are counted: those that a call of the plan asks for by a step of its own, and one at the end of each epoch of all calls.
ghost use Rattle.std.specs.Prelude.{◌≡◌, ◌<◌, ◌≤◌, OnOk, length};
ghost use Rattle.mg_model.specs.Numbers.{plan_calls};
ghost use Rattle.mg_model.specs.declared.events.Event.TheVariants.{Restart};
ghost use Rattle.planned_calls.specs.Lasting.{IdentifiersAreLeft};
ghost use Rattle.planned_calls.specs.Shards.{HasHappened, HasSameOpening};
ghost use Rattle.run_shards.specs.Counting.{AsksForRestart, StaysCountedAs, StaysCountedBy, TakesEnd, TakesRestart};

use crate::shard_count::{ShardCount, raise};
use mg_model::plans::PlanStep;
use planned_calls::{RunFault, Shard};
use plans::Plan;
use std::alloc::Global;

/// The gateway of a shard restarts, with identifiers left. `Disagree` in the last association, which no plan reaches, and `NoMemory` where memory ran out.
fn restart(shard: &mut Shard<'_>) -> Result<(), RunFault>
    ensures opening { HasSameOpening shard.old shard.new }
    ensures happened { OnOk result (HasHappened shard.old shard.new Restart) }
    ensures left { IdentifiersAreLeft shard.old }
{
    shard.identifiers_are_left();
    shard.restart()?;
    Ok(())
}

impl ShardCount {
    /// Counts a restart that a call of the plan asks for, where it is its next step if the call is one of this shard. `Disagree` where it isn't, or where restarts
    /// can't be counted on.
    fn count_restart(&mut self, plan: &Plan, first: u32, is_own: bool) -> Result<(), RunFault>
        ensures counts { self.new.counts ≡ self.old.counts }
        ensures places { length self.new.places.items ≡ length self.old.places.items }
        ensures whole { self.new.is_whole ≡ self.old.is_whole }
        ensures asks { OnOk result (length self.old.places.items ≡ length plan.now.calls → AsksForRestart plan.now.calls first is_own self.old self.new) }
    {
        let Some(restarts) = self.restarts.checked_add(1) else {
            return Err(RunFault::Disagree);
        };
        if is_own {
            let Some(PlanStep::Restarts) = self.next_step(plan, first) else {
                return Err(RunFault::Disagree);
            };
            raise(&mut self.places, first)?;
        }
        self.restarts = restarts;
        Ok(())
    }

    /// A restart of the shard, for which a call of the plan asks.
    fn take_restart(
        &mut self,
        plan: &Plan,
        shard: &mut Shard<'_>,
        first: u32,
        is_own: bool,
    ) -> Result<(), RunFault>
        ensures opening { HasSameOpening shard.old shard.new }
        ensures counts { self.new.counts ≡ self.old.counts }
        ensures places { length self.new.places.items ≡ length self.old.places.items }
        ensures whole { self.new.is_whole ≡ self.old.is_whole }
        ensures happened { OnOk result (HasHappened shard.old shard.new Restart) }
        ensures taken { OnOk result (length self.old.places.items ≡ length plan.now.calls → TakesRestart plan.now.calls first is_own shard.old self.old shard.new self.new) }
    {
        self.count_restart(plan, first, is_own)?;
        restart(shard)
    }

    /// The gateway of a shard restarts, for a step of a call of the plan, of this shard or of another one. `Disagree` where it isn't the next step of a call of
    /// this one, and `NoMemory` where memory ran out. Where it meets trouble, the count is whole no more.
    pub(crate) fn restart(
        &mut self,
        plan: &Plan,
        shard: &mut Shard<'_>,
        first: u32,
        is_own: bool,
    ) -> Result<(), RunFault>
        ensures happened { OnOk result (HasHappened shard.old shard.new Restart) }
        ensures counted { StaysCountedBy plan.now.calls first is_own shard.old self.old shard.new self.new }
    {
        match self.take_restart(plan, shard, first, is_own) {
            Ok(()) => Ok(()),
            Err(fault) => {
                self.is_whole = false;
                Err(fault)
            }
        }
    }

    /// All calls of a shard, one of so many, have taken their steps of this epoch, and its gateway restarts.
    fn take_end(
        &mut self,
        alloc: Global,
        plan: &Plan,
        shard: &mut Shard<'_>,
        count: u32,
        number: u32,
    ) -> Result<(), RunFault>
        requires few { length plan.now.calls ≤ plan_calls }
        requires all { length self.old.places.items ≡ length plan.now.calls }
        requires some { 0 < count }
        ensures opening { HasSameOpening shard.old shard.new }
        ensures counts { self.new.counts ≡ self.old.counts }
        ensures places { length self.new.places.items ≡ length self.old.places.items }
        ensures whole { self.new.is_whole ≡ self.old.is_whole }
        ensures happened { OnOk result (HasHappened shard.old shard.new Restart) }
        ensures taken { OnOk result (TakesEnd plan.now.calls count number shard.old self.old shard.new self.new) }
    {
        if !self.is_at_end(plan, count, number) {
            return Err(RunFault::Disagree);
        }
        let Some(epoch) = self.epoch.checked_add(1) else {
            return Err(RunFault::Disagree);
        };
        let places = Vec::from_elem(alloc, 0usize, self.places.len())?;
        self.ends.push(self.restarts)?;
        restart(shard)?;
        self.epoch = epoch;
        self.places = places;
        Ok(())
    }

    /// An epoch of all calls ends, and the gateway of a shard, one of so many, restarts. `Disagree` where a call of it has a step left, and `NoMemory` where memory
    /// ran out. Where it meets trouble, the count is whole no more.
    pub(crate) fn end_epoch(
        &mut self,
        alloc: Global,
        plan: &Plan,
        shard: &mut Shard<'_>,
        count: u32,
        number: u32,
    ) -> Result<(), RunFault>
        requires few { length plan.now.calls ≤ plan_calls }
        requires all { length self.old.places.items ≡ length plan.now.calls }
        requires some { 0 < count }
        ensures happened { OnOk result (HasHappened shard.old shard.new Restart) }
        ensures counted { StaysCountedAs plan.now.calls count number shard.old self.old shard.new self.new }
    {
        match self.take_end(alloc, plan, shard, count, number) {
            Ok(()) => Ok(()),
            Err(fault) => {
                self.is_whole = false;
                Err(fault)
            }
        }
    }
}
