//! The calls of a plan moved on by workers, in all of its epochs.
ghost use Rattle.std.specs.Prelude.{◌≡◌, ℕ, ◌+◌, ◌-◌, ◌<◌, ◌≤◌, IfOk, OnOk, length, vec_len};
ghost use Rattle.mg_model.specs.Numbers.{plan_calls};
ghost use Rattle.mg_model.specs.Plans as plans;
ghost use Rattle.plans.specs.Accepted.{IsPlanFor};
ghost use Rattle.workers.specs.RunShards.{AreOfRun};
ghost use Rattle.workers.specs.Counting.{AreCounted};
ghost use Rattle.workers.specs.PlanSteps.{AreOver, HaveEnded};

use crate::epoch::pass;
use crate::passed_epochs::PassedEpochs;
use crate::workplace::Workplace;
use crate::{
    LockedShard, Places, PlannedCall, PlayedShards, RestartedShards, RunFault, RunPlan, Running,
    all_planned, epochs_of, open_all, unlocked,
};
use composition::Checked;
use plans::Plan;
use run_shards::Gate;
use std::alloc::Global;
use std::marker::Brand;
use std::sync::{Mutex, Wait};
use std::thread::Threads;

/// The epoch that was passed ends, if one was: each shard restarts, one after the other, each under its lock alone. `Disagree` where a call has a step left,
/// and `NoMemory` where memory ran out; the shards before it are restarted then.
fn end_epoch<B: Running, R: Wait>(
    rt: &R,
    alloc: Global,
    shards: &[Mutex<LockedShard<'_, B>>],
    plan: &RunPlan<'_, B>,
    epochs: &mut PassedEpochs,
) -> Result<(), RunFault>
    requires ended { epochs.old.ended ≤ epochs.old.passed }
    requires passed { epochs.old.passed ≤ epochs.old.ended + 1 }
    ensures passed { epochs.new.passed ≡ epochs.old.passed }
    ensures ended { OnOk result (epochs.new.ended ≡ epochs.new.passed) }
{
    if epochs.have_ended() {
        return Ok(());
    }
    let mut restarted = RestartedShards::none();
    for shard in shards {
        let mut locked = shard.lock(rt);
        locked.end_epoch(alloc, plan, &mut restarted)?;
    }
    epochs.end(restarted, shards);
    Ok(())
}

/// All epochs of the plan, with a restart of every shard between two. All workers of an epoch are joined before it.
fn pass_all<'a, 's, G: Gate, B: Running + Send + Sync, R: Threads + Wait + Sync>(
    rt: &R,
    alloc: Global,
    first: &Workplace<'a, 's, G, B>,
    workers: usize,
    places: Places<'s>,
) -> Result<(Places<'s>, PassedEpochs), RunFault>
    requires few { vec_len places ≤ plan_calls }
    requires some { 0 < length first.now.shards.now }
    ensures len { IfOk result (λ r. vec_len r.0 ≡ vec_len places.entry) }
    ensures passed { IfOk result (λ r. r.1.passed ≡ plans.epochs_of first.now.plan.now.calls) }
    ensures ended { IfOk result (λ r. r.1.ended ≡ plans.epochs_of first.now.plan.now.calls - 1) }
    ensures over { IfOk result (λ r. (epoch : ℕ) → epoch + 1 ≡ plans.epochs_of first.now.plan.now.calls → AreOver first.now.plan.now.calls epoch r.0.items) }
{
    let mut places = places;
    let mut epochs = PassedEpochs::none();
    for epoch in 0..epochs_of(first.plan.plan()) {
        end_epoch(rt, alloc, first.shards, first.plan, &mut epochs)?;
        let workplace = Workplace {
            shards: first.shards,
            plan: first.plan,
            epoch,
            gate: first.gate,
        };
        places = pass(rt, alloc, &workplace, workers, places)?;
        epochs.pass(first.plan, &places);
    }
    Ok((places, epochs))
}

/// A run in which all shards are of this script, and have their parts of these calls.
fn go<'s, G: Gate, B: Running + Send + Sync, R: Threads + Wait + Sync>(
    rt: &R,
    alloc: Global,
    checked: &'s Checked,
    plan: &Plan,
    workers: usize,
    gate: &G,
) -> Result<(PlayedShards<'s>, Vec<PlannedCall<'s>>), RunFault>
    requires plan { IsPlanFor checked.now.table plan.now }
    requires few { length plan.now.calls ≤ plan_calls }
    requires script { B.script ≡ checked.now.table }
    requires calls { B.calls ≡ plan.now.calls }
    requires count { B.count ≡ plan.now.shards }
    ensures shards { IfOk result (λ r. AreOfRun checked.now.table plan.now.calls plan.now.shards 0 r.0.shards.items) }
    ensures counted { IfOk result (λ r. AreCounted checked.now.table plan.now.calls plan.now.shards 0 r.0.shards.items r.0.counts.items) }
    ensures all { IfOk result (λ r. vec_len r.1 ≡ length plan.now.calls) }
    ensures ended { IfOk result (λ r. HaveEnded plan.now.calls r.1.items) }
{
    let (shards, places) = open_all::<B, R>(rt, alloc, checked, plan, workers)?;
    let run_plan = RunPlan::<B>::new(plan);
    let first = Workplace {
        shards: shards.as_slice(),
        plan: &run_plan,
        epoch: 0,
        gate,
    };
    let (places, _) = pass_all(rt, alloc, &first, workers, places)?;
    let played = unlocked(alloc, shards)?;
    let planned_calls = all_planned(alloc, places)?;
    Ok((played, planned_calls))
}

/// The shards of a plan and its calls, once so many workers have gone through all of its epochs. Each shard is of this script and this plan, whatever happened
/// in it, what is counted of its calls is what a log of it counts, and each call is back, with no step of the last epoch left. `Disagree` where a call is lost
/// or a shard stands at another's number, and `NoMemory` where memory ran out.
pub fn run_calls<'s, G: Gate, R: Threads + Wait + Sync>(
    rt: &R,
    alloc: Global,
    checked: &'s Checked,
    plan: &Plan,
    workers: usize,
    gate: &G,
) -> Result<(PlayedShards<'s>, Vec<PlannedCall<'s>>), RunFault>
    requires plan { IsPlanFor checked.now.table plan.now }
    requires few { length plan.now.calls ≤ plan_calls }
    ensures shards { IfOk result (λ r. AreOfRun checked.now.table plan.now.calls plan.now.shards 0 r.0.shards.items) }
    ensures counted { IfOk result (λ r. AreCounted checked.now.table plan.now.calls plan.now.shards 0 r.0.shards.items r.0.counts.items) }
    ensures all { IfOk result (λ r. vec_len r.1 ≡ length plan.now.calls) }
    ensures ended { IfOk result (λ r. HaveEnded plan.now.calls r.1.items) }
{
    go::<G, Brand, R>(rt, alloc, checked, plan, workers, gate)
}
