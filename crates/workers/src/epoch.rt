//! An epoch: the calls of each shard go into a queue of their own, workers do their steps of it, and all come back.
ghost use Rattle.std.specs.Prelude.{◌≡◌, ◌∷◌, ◌<◌, ◌≤◌, [], IfOk, None, Ok, OnOk, length, option_map, vec_len};
ghost use Rattle.std.specs.List.{All};
ghost use Rattle.mg_model.specs.Numbers.{plan_calls};
ghost use Rattle.call_queues.specs.Passing.{IsOwner, IsWorkersAt, OwnersKeep};
ghost use Rattle.workers.specs.PlanSteps.{AreOver, at_first_step};
ghost use Rattle.workers.specs.Working.{LeavesOver, OwnersStayOver, PassesOn};

use crate::worker::{Job, Worked, work};
use crate::workplace::Workplace;
use crate::{Places, PlannedCall, RunFault, Running};
use call_queues::{QueueFault, QueueOwner, absorb_all, open_queues, settle, worker_queues};
use handover::Queue;
use run_shards::Gate;
use std::alloc::Global;
use std::sync::Wait;
use std::thread;
use std::thread::Threads;

/// What the queues gave, or why a run has no outcome where they gave nothing.
fn given<T>(gave: Result<T, QueueFault>) -> Result<T, RunFault>
    ensures { IfOk result (λ value. gave ≡ Ok value) }
{
    match gave {
        Ok(value) => Ok(value),
        Err(QueueFault::Disagree) => Err(RunFault::Disagree),
        Err(QueueFault::NoMemory) => Err(RunFault::NoMemory),
    }
}

/// The call at a place, where one is there, is at the first step of its epoch.
fn begin_call(place: &mut Option<PlannedCall<'_>>)
    ensures { place.new ≡ option_map at_first_step place.old }
{
    if let Some(planned) = place {
        planned.log.place = 0;
    }
}

/// All calls are at the first steps of their epoch.
fn begin_calls(places: &mut [Option<PlannedCall<'_>>])
    ensures { length places.new ≡ length places.old }
{
    for place in places.iter_mut() {
        begin_call(place);
    }
}

/// A job for each of so many workers.
fn jobs<'a, 's, G, B: Running>(
    alloc: Global,
    queues: &'a [Queue<PlannedCall<'s>>],
    owners: &mut Vec<QueueOwner<PlannedCall<'s>>>,
    workplace: &'a Workplace<'a, 's, G, B>,
    workers: usize,
) -> Result<Vec<Job<'a, 's, G, B>>, RunFault>
    requires { All (λ o. IsOwner queues.now o) owners.old.items }
    ensures owners { All (λ o. IsOwner queues.now o) owners.new.items }
    ensures ready { IfOk result (λ js. All (λ job. (job.queues.now ≡ queues.now) × All (λ s. IsWorkersAt queues.now s) job.worker_queues.items) js.items) }
    ensures len { IfOk result (λ js. vec_len js ≡ workers) }
    ensures workplace { IfOk result (λ js. All (λ job. job.workplace.now ≡ workplace.now) js.items) }
    ensures none { IfOk result (λ js. All (λ job. All (λ s. s.done.items ≡ []) job.worker_queues.items) js.items) }
    ensures back { OnOk result (OwnersKeep owners.old.items owners.new.items) }
{
    let count = owners.len();
    let mut jobs = Vec::new(alloc);
    for worker in 0..workers {
        // Workers begin as far from each other as they can, so that they meet at one queue as late as they can.
        let first = worker.saturating_mul(count) / workers;
        let worker_queues = given(worker_queues(alloc, queues, owners, first))?;
        let job = Job {
            queues,
            worker_queues,
            workplace,
        };
        jobs.push(job)?;
    }
    Ok(jobs)
}

/// Takes back the places of a worker, with the calls that it is done with. The trouble that it met, or `NoMemory`.
fn absorb<'s>(
    queues: &[Queue<PlannedCall<'s>>],
    owners: &mut Vec<QueueOwner<PlannedCall<'s>>>,
    worked: Worked<'s>,
) -> Result<(), RunFault>
    requires owners { All (λ o. IsOwner queues.now o) owners.old.items }
    requires workers { All (λ s. IsWorkersAt queues.now s) worked.worker_queues.items }
    ensures owners { OnOk result (All (λ o. IsOwner queues.now o) owners.new.items) }
    ensures untroubled { OnOk result (worked.entry.trouble ≡ None) }
    ensures back { OnOk result (PassesOn owners.old.items (worked.entry ∷ []) owners.new.items) }
{
    let Worked {
        worker_queues,
        trouble,
    } = worked;
    if let Some(fault) = trouble {
        return Err(fault);
    }
    given(absorb_all(queues, owners, worker_queues))?;
    Ok(())
}

/// Takes back the places of all workers. The first trouble that one met, or `NoMemory`.
fn gather<'s>(
    queues: &[Queue<PlannedCall<'s>>],
    owners: &mut Vec<QueueOwner<PlannedCall<'s>>>,
    all: Vec<Worked<'s>>,
) -> Result<(), RunFault>
    requires owners { All (λ o. IsOwner queues.now o) owners.old.items }
    requires workers { All (λ worked. All (λ s. IsWorkersAt queues.now s) worked.worker_queues.items) all.items }
    ensures owners { OnOk result (All (λ o. IsOwner queues.now o) owners.new.items) }
    ensures back { OnOk result (PassesOn owners.old.items all.entry.items owners.new.items) }
{
    for worked in all {
        absorb(queues, owners, worked)?;
    }
    Ok(())
}

/// So many workers serve the queues, until no call of them has a step left in the epoch. What they were done with, and has none, is with the queues' owners
/// then.
fn served<'a, 's, G: Gate, B: Running + Send + Sync, R: Threads + Wait + Sync>(
    rt: &R,
    alloc: Global,
    workplace: &'a Workplace<'a, 's, G, B>,
    workers: usize,
    queues: &'a [Queue<PlannedCall<'s>>],
    owners: &mut Vec<QueueOwner<PlannedCall<'s>>>,
) -> Result<(), RunFault>
    requires { All (λ o. IsOwner queues.now o) owners.old.items }
    ensures owners { OnOk result (All (λ o. IsOwner queues.now o) owners.new.items) }
    ensures over { OnOk result (OwnersStayOver workplace.now.plan.now.calls workplace.now.epoch owners.old.items owners.new.items) }
{
    let jobs = jobs(alloc, queues, owners, workplace, workers)?;
    let all = thread::map_vec(
        rt,
        jobs,
        &|job|
            requires { All (λ s. IsWorkersAt job.queues.now s) job.worker_queues.items }
            ensures workers { All (λ s. IsWorkersAt job.entry.queues.now s) result.worker_queues.items }
            ensures over { LeavesOver job.entry.workplace.now.plan.now.calls job.entry.workplace.now.epoch job.entry.worker_queues.items result }
        { work(rt, job) },
    )?;
    gather(queues, owners, all)
}

/// An epoch of all calls, which come back at their numbers, with no step of it left.
pub(crate) fn pass<'a, 's, G: Gate, B: Running + Send + Sync, R: Threads + Wait + Sync>(
    rt: &R,
    alloc: Global,
    workplace: &'a Workplace<'a, 's, G, B>,
    workers: usize,
    places: Places<'s>,
) -> Result<Places<'s>, RunFault>
    requires few { vec_len places ≤ plan_calls }
    requires some { 0 < length workplace.now.shards.now }
    ensures len { IfOk result (λ back. vec_len back ≡ vec_len places.entry) }
    ensures over { IfOk result (λ back. AreOver workplace.now.plan.now.calls workplace.now.epoch back.items) }
{
    let mut places = places;
    begin_calls(places.as_mut_slice());
    let (queues, mut owners) = given(open_queues(rt, alloc, &mut places, workplace.shards.len()))?;
    let queues = queues.as_slice();
    served(rt, alloc, workplace, workers, queues, &mut owners)?;
    given(settle(rt, queues, owners, &mut places))?;
    Ok(places)
}
