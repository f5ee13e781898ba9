//! The run's own place at the queue of a shard: workers' places come from it, and come back to it.
ghost use Rattle.std.specs.Prelude.{◌≡◌, ◌++◌, [], IfOk, OnOk};
ghost use Rattle.handover.specs.Queues.{hand_of};
ghost use Rattle.call_queues.specs.Passing.{IsOwner, IsWorkersAt};

use crate::fault::QueueFault;
use crate::worker_queue::WorkerQueue;
use handover::Queue;
use std::alloc::Global;

/// How many places may come from one: a share has parts for more.
const MOST_AWAY: usize = 64;

/// A place whose share has all parts of the right to know the whole but those that workers have. This profile's own.
#[derive(Drop)]
pub struct QueueOwner<T> {
    pub(crate) worker_queue: WorkerQueue<T>,
    /// How many parts workers have.
    pub(crate) away: usize,
}

impl<T: Drop> QueueOwner<T> {
    /// A place more at the same queue, with one part. `Disagree` where too many are away.
    pub(crate) fn another(
        &mut self,
        alloc: Global,
        queues: &[Queue<T>],
    ) -> Result<WorkerQueue<T>, QueueFault>
        requires { IsOwner queues.now self.old }
        ensures own { IsOwner queues.now self.new }
        ensures begun { (hand_of self.new.worker_queue.share).begun ≡ (hand_of self.old.worker_queue.share).begun }
        ensures done { self.new.worker_queue.done.items ≡ self.old.worker_queue.done.items }
        ensures new { IfOk result (λ s. IsWorkersAt queues.now s) }
        ensures none { IfOk result (λ s. s.done.items ≡ []) }
    {
        if self.away >= MOST_AWAY {
            return Err(QueueFault::Disagree);
        }
        let Some(queue) = queues.get(self.worker_queue.shard) else {
            unreachable!()
        };
        self.away += 1;
        Ok(WorkerQueue {
            shard: self.worker_queue.shard,
            share: queue.another(&mut self.worker_queue.share),
            done: Vec::new(alloc),
        })
    }

    /// Takes back a worker's place, with the calls that it is done with. `Disagree` where it isn't one of the same shard or none is away, and `NoMemory`
    /// where memory ran out.
    pub(crate) fn absorb(
        &mut self,
        queues: &[Queue<T>],
        worker_queue: WorkerQueue<T>,
    ) -> Result<(), QueueFault>
        requires own { IsOwner queues.now self.old }
        requires theirs { IsWorkersAt queues.now worker_queue }
        ensures own { OnOk result (IsOwner queues.now self.new) }
        ensures begun { OnOk result ((hand_of self.new.worker_queue.share).begun ≡ (hand_of self.old.worker_queue.share).begun) }
        ensures done { OnOk result (self.new.worker_queue.done.items ≡ self.old.worker_queue.done.items ++ worker_queue.done.items) }
    {
        let shard = worker_queue.shard;
        if shard != self.worker_queue.shard {
            return Err(QueueFault::Disagree);
        }
        let away = self.away;
        let Some(away) = away.checked_sub(1) else {
            return Err(QueueFault::Disagree);
        };
        let Some(queue) = queues.get(shard) else {
            unreachable!()
        };
        let WorkerQueue { share, done, .. } = worker_queue;
        queue.absorb(&mut self.worker_queue.share, share);
        self.away = away;
        let mut done = done;
        self.worker_queue.done.append(&mut done)?;
        Ok(())
    }
}
