//! A shard under its lock, with what is counted of its calls: all that is known of it, once the lock is let go, is that it is one of this run, and counted.
ghost use Rattle.std.specs.Prelude.{◌≡◌, ◌+◌, ◌%◌, ◌==◌, ◌<◌, [], OnOk, length};
ghost use Rattle.mg_model.specs.declared.events.Event.TheVariants.{Restart};
ghost use Rattle.planned_calls.specs.RunShards.{IsOfRun};
ghost use Rattle.planned_calls.specs.Shards.{HasHappened};
ghost use Rattle.run_shards.specs.Counting.{IsCounted};

use crate::restarted::RestartedShards;
use crate::run_plan::RunPlan;
use crate::running::Running;
use crate::shard_count::ShardCount;
use planned_calls::{PlannedCall, RunFault, Shard};
use std::alloc::{AllocError, Global};
use std::marker::{Model, PhantomData};

/// A shard of a run, as it stands under its lock. This profile's own.
#[derive(Drop)]
pub struct LockedShard<'s, B: Running> {
    shard: Shard<'s>,
    count: ShardCount,
    number: u32,
    of: PhantomData<B>,
    /// A cache line, so that what a worker writes of this shard is on none with the next one's lock, which another worker takes.
    apart: [u64; 8],
}

impl<'s, B: Running> Model for LockedShard<'s, B> {
    ghost use Rattle.planned_calls.specs.Shards.{ShardValue};
    ghost use Rattle.planned_calls.specs.RunShards.{IsOfRun};
    ghost use Rattle.run_shards.specs.Counting.{IsCounted};

    ghost Value = { ShardValue };

    ghost view = { λ k. k.shard };

    ghost invariant = { λ k. IsOfRun B.script B.calls B.count k.number k.shard × IsCounted B.script B.calls B.count k.number k.shard k.count };
}

/// Whether a call of the plan is one of a shard, one of so many.
fn is_own(by: u32, count: u32, number: u32) -> bool
    requires { 0 < count }
    ensures { result ≡ (by % count == number) }
{
    by % count == number
}

impl<'s, B: Running> LockedShard<'s, B> {
    /// A shard of this run with its number, from 0, in which nothing happened; nothing is counted yet of so many calls of the plan.
    pub(crate) fn new(
        alloc: Global,
        shard: Shard<'s>,
        calls: usize,
        number: u32,
    ) -> Result<LockedShard<'s, B>, AllocError>
        requires of_run { IsOfRun B.script B.calls B.count number shard }
        requires nothing { shard.history ≡ [] }
        requires all { length B.calls ≡ calls }
    {
        let count = ShardCount::new(alloc, &shard, calls)?;
        Ok(LockedShard {
            shard,
            count,
            number,
            of: PhantomData,
            apart: [0; 8],
        })
    }

    /// The shard, what is counted of its calls, and its number.
    pub(crate) fn parts(self) -> (Shard<'s>, ShardCount, u32)
        ensures of_run { IsOfRun B.script B.calls B.count result.2 result.0 }
        ensures counted { IsCounted B.script B.calls B.count result.2 result.0 result.1 }
    {
        let LockedShard {
            shard,
            count,
            number,
            ..
        } = self;
        (shard, count, number)
    }

    /// The next step of a call of the plan, which is no restart, is taken in its shard, and is counted: of its error is known what `PlannedCall::step` says,
    /// and `Disagree` comes too where the plan has no such step of it.
    pub fn step(
        &mut self,
        plan: &RunPlan<'_, B>,
        planned: PlannedCall<'s>,
    ) -> (PlannedCall<'s>, Result<(), RunFault>)
        ensures begun { result.0.log.begun ≡ planned.entry.log.begun }
        ensures place { result.0.log.place ≡ planned.entry.log.place }
    {
        self.count.step(plan.plan(), &mut self.shard, planned)
    }

    /// The gateway restarts (H.248.1 v1, 7.2.8: ServiceChange of method Restart), for a step of a call of the plan, of this shard or of another one, and counts
    /// itself among those that did. The error is that of `Shard::restart`, and `Disagree` comes too where it isn't the next step of a call of this shard, or
    /// not the turn of this shard.
    pub fn restart(
        &mut self,
        plan: &RunPlan<'_, B>,
        by: u32,
        restarted: &mut RestartedShards,
    ) -> Result<(), RunFault>
        ensures happened { OnOk result (HasHappened self.old self.new Restart) }
        ensures turn { OnOk result (self.old.first ≡ restarted.old) }
        ensures counted { OnOk result (restarted.new ≡ restarted.old + 1) }
    {
        restarted.add(self.number)?;
        self.shard.keeps_its_run();
        let plan = plan.plan();
        let is_own = is_own(by, u32::from(plan.shards()), self.number);
        self.count.restart(plan, &mut self.shard, by, is_own)
    }

    /// An epoch of all calls ends, and the gateway restarts and counts itself among those that did. `Disagree` where a call of the shard has a step of it left,
    /// or where it isn't the turn of this shard, and `NoMemory` where memory ran out.
    pub fn end_epoch(
        &mut self,
        alloc: Global,
        plan: &RunPlan<'_, B>,
        restarted: &mut RestartedShards,
    ) -> Result<(), RunFault>
        ensures happened { OnOk result (HasHappened self.old self.new Restart) }
        ensures turn { OnOk result (self.old.first ≡ restarted.old) }
        ensures counted { OnOk result (restarted.new ≡ restarted.old + 1) }
    {
        restarted.add(self.number)?;
        self.shard.keeps_its_run();
        let plan = plan.plan();
        let count = u32::from(plan.shards());
        self.count
            .end_epoch(alloc, plan, &mut self.shard, count, self.number)
    }
}
