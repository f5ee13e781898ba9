//! A worker: it goes from queue to queue. From each it takes a call, does a few of its steps, and hands it back, until it finds none there.
ghost use Rattle.std.specs.Prelude.{◌≡◌, false, true, IfOk, OnOk};
ghost use Rattle.std.specs.List.{All};
ghost use Rattle.call_queues.specs.Passing.{IsWorkers, IsWorkersAt};
ghost use Rattle.workers.specs.PlanSteps.{IsFurther, is_over, item_is_over};
ghost use Rattle.workers.specs.Working.{LeavesOver, StayOver, StaysOver};

use crate::workplace::Workplace;
use call_queues::WorkerQueue;
use handover::{NumberedItem, Queue};
use run_shards::{Gate, PlannedCall, RunFault, Running};
use std::sync::Wait;

/// How many steps of a call a worker does before it hands it back.
const TURN: usize = 8;

/// What a worker begins with: the queue of each shard, its places at them in the order in which it goes to them, and where calls are run.
#[derive(Drop)]
pub struct Job<'a, 's, G, B: Running> {
    /// The queue of each shard.
    pub queues: &'a [Queue<PlannedCall<'s>>],
    /// Its places at them, in the order in which it goes to them.
    pub worker_queues: Vec<WorkerQueue<PlannedCall<'s>>>,
    /// Where calls are run.
    pub workplace: &'a Workplace<'a, 's, G, B>,
}

/// What a worker leaves: its places, and why it stopped before it found no call, if it did.
#[derive(Drop)]
pub struct Worked<'s> {
    /// Its places.
    pub worker_queues: Vec<WorkerQueue<PlannedCall<'s>>>,
    /// Why it stopped, if it met trouble.
    pub trouble: Option<RunFault>,
}

/// A few steps of a call in this epoch: eight, or as many as it has left. It is done with where it has no step left, or where one met trouble.
fn turn<'a, 's, G: Gate, B: Running, R: Wait>(
    rt: &R,
    workplace: &Workplace<'a, 's, G, B>,
    number: u32,
    planned: PlannedCall<'s>,
) -> (PlannedCall<'s>, Result<bool, RunFault>)
    ensures over { IfOk result.1 (λ done. done ≡ true → is_over workplace.now.plan.now.calls number workplace.now.epoch result.0 ≡ true) }
    ensures turn { IfOk result.1 (λ done. done ≡ false → IsFurther TURN planned.entry result.0) }
{
    let mut planned = planned;
    for _ in 0..TURN {
        let Some(step) = workplace.step_of(number, &planned) else {
            return (planned, Ok(true));
        };
        let (after, done) = workplace.take(rt, number, planned, &step);
        planned = after;
        if let Err(fault) = done {
            return (planned, Err(fault));
        }
    }
    (planned, Ok(false))
}

/// A turn of a call, which keeps its number.
fn turned<'a, 's, G: Gate, B: Running, R: Wait>(
    rt: &R,
    workplace: &Workplace<'a, 's, G, B>,
    item: NumberedItem<PlannedCall<'s>>,
) -> (NumberedItem<PlannedCall<'s>>, Result<bool, RunFault>)
    ensures number { result.0.number ≡ item.entry.number }
    ensures over { IfOk result.1 (λ done. done ≡ true → item_is_over workplace.now.plan.now.calls workplace.now.epoch result.0 ≡ true) }
{
    let NumberedItem { number, load } = item;
    let (load, is_over) = turn(rt, workplace, number, load);
    (NumberedItem { number, load }, is_over)
}

/// Whether a call after a turn goes back into its queue.
fn goes_on(is_over: &Result<bool, RunFault>) -> bool
    ensures yes { result ≡ true → is_over.now ≡ Ok false }
    ensures no { result ≡ false → is_over.now ≡ Ok false → ⊥ }
{
    matches!(is_over, Ok(false))
}

/// Takes a call from a queue, does a few of its steps, and hands it back or is done with it; so it is at want of memory too. No, where the queue has none.
fn serve_one<'a, 's, G: Gate, B: Running, R: Wait>(
    rt: &R,
    queue: &Queue<PlannedCall<'s>>,
    worker_queue: &mut WorkerQueue<PlannedCall<'s>>,
    workplace: &Workplace<'a, 's, G, B>,
) -> Result<bool, RunFault>
    requires { IsWorkers queue.now worker_queue.old }
    ensures shard { worker_queue.new.shard ≡ worker_queue.old.shard }
    ensures workers { IsWorkers queue.now worker_queue.new }
    ensures over { OnOk result (StaysOver workplace.now.plan.now.calls workplace.now.epoch worker_queue.old worker_queue.new) }
{
    worker_queue.done.reserve(1)?;
    let Some(item) = queue.take(rt, &mut worker_queue.share) else {
        return Ok(false);
    };
    let (item, is_over) = turned(rt, workplace, item);
    if goes_on(&is_over) {
        queue.put(rt, &mut worker_queue.share, item);
        return Ok(true);
    }
    worker_queue.done.push_reserved(item);
    is_over
}

/// Takes calls from a queue and does their steps, until the queue has none, or one meets trouble.
fn serve<'a, 's, G: Gate, B: Running, R: Wait>(
    rt: &R,
    queue: &Queue<PlannedCall<'s>>,
    worker_queue: &mut WorkerQueue<PlannedCall<'s>>,
    workplace: &Workplace<'a, 's, G, B>,
) -> Result<(), RunFault>
    requires { IsWorkers queue.now worker_queue.old }
    ensures shard { worker_queue.new.shard ≡ worker_queue.old.shard }
    ensures workers { IsWorkers queue.now worker_queue.new }
    ensures over { OnOk result (StaysOver workplace.now.plan.now.calls workplace.now.epoch worker_queue.old worker_queue.new) }
{
    for _ in rt.forever() {
        if !serve_one(rt, queue, worker_queue, workplace)? {
            return Ok(());
        }
    }
    Ok(())
}

/// Serves at each place in turn. A worker goes on to the queues of other shards once its own has no call, so no call waits for a worker of its own.
fn serve_all<'a, 's, G: Gate, B: Running, R: Wait>(
    rt: &R,
    queues: &[Queue<PlannedCall<'s>>],
    worker_queues: &mut [WorkerQueue<PlannedCall<'s>>],
    workplace: &Workplace<'a, 's, G, B>,
) -> Result<(), RunFault>
    requires { All (λ s. IsWorkersAt queues.now s) worker_queues.old }
    ensures workers { All (λ s. IsWorkersAt queues.now s) worker_queues.new }
    ensures over { OnOk result (StayOver workplace.now.plan.now.calls workplace.now.epoch worker_queues.old worker_queues.new) }
{
    for worker_queue in worker_queues.iter_mut() {
        let Some(queue) = queues.get(worker_queue.shard) else {
            unreachable!()
        };
        serve(rt, queue, worker_queue, workplace)?;
    }
    Ok(())
}

/// Works at all places. What is done with there has no step of the epoch left, unless there was trouble.
pub fn work<'a, 's, G: Gate, B: Running, R: Wait>(rt: &R, job: Job<'a, 's, G, B>) -> Worked<'s>
    requires { All (λ s. IsWorkersAt job.queues.now s) job.worker_queues.items }
    ensures workers { All (λ s. IsWorkersAt job.entry.queues.now s) result.worker_queues.items }
    ensures over { LeavesOver job.entry.workplace.now.plan.now.calls job.entry.workplace.now.epoch job.entry.worker_queues.items result }
{
    let Job {
        queues,
        worker_queues,
        workplace,
    } = job;
    let mut worker_queues = worker_queues;
    let trouble = serve_all(rt, queues, worker_queues.as_mut_slice(), workplace).err();
    Worked {
        worker_queues,
        trouble,
    }
}
