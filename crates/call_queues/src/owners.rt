//! Places go to workers, and come back.
ghost use Rattle.std.specs.Prelude.{◌≡◌, [], IfOk, OnOk};
ghost use Rattle.std.specs.List.{All};
ghost use Rattle.call_queues.specs.Passing.{IsOwner, IsWorkersAt, OwnersGet, OwnersKeep};

use crate::fault::QueueFault;
use crate::queue_owner::QueueOwner;
use crate::worker_queue::WorkerQueue;
use handover::Queue;
use std::alloc::Global;

/// A place more at each queue, for one worker, in the order in which it goes to them: that of this shard first, and then round. No call is done with at them
/// yet, and what the owners have back is as it was. Which place comes first decides alone how long workers wait for each other: with all workers at one queue
/// first an epoch takes longer, and nothing else changes. `Disagree` where too many are away, and `NoMemory` where memory ran out. This profile's own.
pub fn worker_queues<T: Drop>(
    alloc: Global,
    queues: &[Queue<T>],
    owners: &mut Vec<QueueOwner<T>>,
    first: usize,
) -> Result<Vec<WorkerQueue<T>>, QueueFault>
    requires { All (λ o. IsOwner queues.now o) owners.old.items }
    ensures owners { All (λ o. IsOwner queues.now o) owners.new.items }
    ensures worker_queues { IfOk result (λ made. All (λ s. IsWorkersAt queues.now s) made.items) }
    ensures none { IfOk result (λ made. All (λ s. s.done.items ≡ []) made.items) }
    ensures back { OnOk result (OwnersKeep owners.old.items owners.new.items) }
{
    let count = owners.len();
    let mut worker_queues = Vec::new(alloc);
    for turn in 0..count {
        let shard = first.saturating_add(turn) % count;
        let Some(owner) = owners.get_mut(shard) else {
            return Err(QueueFault::Disagree);
        };
        let worker_queue = owner.another(alloc, queues)?;
        worker_queues.push(worker_queue)?;
    }
    Ok(worker_queues)
}

/// Takes back the places of a worker, with the calls that it is done with, which the owners have back then. `Disagree` where one of them isn't away, and
/// `NoMemory` where memory ran out. This profile's own.
pub fn absorb_all<T: Drop>(
    queues: &[Queue<T>],
    owners: &mut Vec<QueueOwner<T>>,
    worker_queues: Vec<WorkerQueue<T>>,
) -> Result<(), QueueFault>
    requires owners { All (λ o. IsOwner queues.now o) owners.old.items }
    requires workers { All (λ s. IsWorkersAt queues.now s) worker_queues.items }
    ensures owners { OnOk result (All (λ o. IsOwner queues.now o) owners.new.items) }
    ensures back { OnOk result (OwnersGet owners.old.items worker_queues.items owners.new.items) }
{
    for worker_queue in worker_queues {
        let shard = worker_queue.shard;
        let Some(owner) = owners.get_mut(shard) else {
            return Err(QueueFault::Disagree);
        };
        owner.absorb(queues, worker_queue)?;
    }
    Ok(())
}
