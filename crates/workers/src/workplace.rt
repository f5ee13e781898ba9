//! Where calls are run: the shards, each under its lock, the plan, the epoch, and the gate.
ghost use Rattle.std.specs.Prelude.{◌≡◌, ◌+◌, ◌<◌, ◌%◌, IfOk, IfSome, length};
ghost use Rattle.run_shards.specs.PlanSteps.{step_at};

use mg_model::plans::PlanStep;
use run_shards::{
    CallLog, Gate, LockedShard, PlannedCall, RestartedShards, RunFault, RunPlan, Running,
    is_restart,
};
use std::sync::{Mutex, Wait};

/// Where calls are run, for all workers of an epoch.
#[derive(Drop)]
pub struct Workplace<'a, 's, G, B: Running> {
    /// The shards, each under its lock.
    pub shards: &'a [Mutex<LockedShard<'s, B>>],
    /// The plan.
    pub plan: &'a RunPlan<'a, B>,
    /// The epoch, from 0.
    pub epoch: usize,
    /// Who lets each step pass.
    pub gate: &'a G,
}

/// A call of which one step more is begun, over all epochs and in this one.
fn begin_step(planned: PlannedCall<'_>) -> PlannedCall<'_>
    ensures { planned.entry.log.place + 1 < 18446744073709551616 → result.log.place ≡ planned.entry.log.place + 1 }
{
    let PlannedCall {
        next,
        standing,
        log,
    } = planned;
    let CallLog {
        trail,
        begun,
        place,
    } = log;
    PlannedCall {
        next,
        standing,
        log: CallLog {
            trail,
            begun: begun.saturating_add(1),
            place: place.saturating_add(1),
        },
    }
}

impl<'a, 's, G: Gate, B: Running> Workplace<'a, 's, G, B> {
    /// The next step of a call of the plan in this epoch; nothing where there is none.
    pub fn step_of(&self, number: u32, planned: &PlannedCall<'s>) -> Option<PlanStep>
        ensures { result ≡ step_at self.now.plan.now.calls number self.now.epoch planned.now.log.place }
    {
        let call = self.plan.plan().calls().get(number as usize)?;
        let epoch = call.epochs().get(self.epoch)?;
        Some(*epoch.steps().get(planned.log.place)?)
    }

    /// The place of a call's shard among all; nothing where there is none.
    fn own_place(&self, number: u32) -> Option<usize>
        ensures { IfSome result (λ place. place ≡ number % length self.now.shards.now) }
    {
        (number as usize).checked_rem(self.shards.len())
    }

    /// A restart that the gate let pass as this step of a call: of each shard, in rising order. As many restarted as there are.
    fn restart<R: Wait>(
        &self,
        rt: &R,
        number: u32,
        _step: usize,
    ) -> Result<RestartedShards, RunFault>
        requires asked { G.was_asked number _step }
        ensures { IfOk result (λ restarted. restarted ≡ length self.now.shards.now) }
    {
        let mut restarted = RestartedShards::none();
        for shard in self.shards {
            let mut locked = shard.lock(rt);
            locked.restart(self.plan, number, &mut restarted)?;
        }
        Ok(restarted)
    }

    /// A step other than a restart that the gate let pass as this one of a call, in the call's shard under its lock.
    fn step_in_shard<R: Wait>(
        &self,
        rt: &R,
        number: u32,
        planned: PlannedCall<'s>,
        _step: usize,
    ) -> (PlannedCall<'s>, Result<(), RunFault>)
        requires asked { G.was_asked number _step }
        ensures { result.0.log.place ≡ planned.entry.log.place }
    {
        let Some(place) = self.own_place(number) else {
            return (planned, Err(RunFault::Disagree));
        };
        let Some(shard) = self.shards.get(place) else {
            return (planned, Err(RunFault::Disagree));
        };
        let mut locked = shard.lock(rt);
        locked.step(self.plan, planned)
    }

    /// A step of a call: the gate lets it pass, with no lock held, and it is done in the call's shard. It counts as done in its epoch.
    pub fn take<R: Wait>(
        &self,
        rt: &R,
        number: u32,
        planned: PlannedCall<'s>,
        step: &PlanStep,
    ) -> (PlannedCall<'s>, Result<(), RunFault>)
        ensures { planned.entry.log.place + 1 < 18446744073709551616 → result.0.log.place ≡ planned.entry.log.place + 1 }
    {
        let begun = planned.log.begun;
        self.gate.pass(rt, number, begun);
        let planned = begin_step(planned);
        if is_restart(step) {
            let done = self.restart(rt, number, begun);
            return (planned, done.and(Ok(())));
        }
        self.step_in_shard(rt, number, planned, begun)
    }
}
