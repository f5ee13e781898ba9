//! The calls of each shard go into a queue of their own.
ghost use Rattle.std.specs.Prelude.{◌≡◌, ◌≤◌, [], IfOk, OnOk, length, nat_lt, vec_len};
ghost use Rattle.std.specs.List.{All};
ghost use Rattle.mg_model.specs.Numbers.{plan_calls};
ghost use Rattle.handover.specs.Hands.{all_parts, hand};
ghost use Rattle.handover.specs.Queues.{IsShareOf, hand_of, room_of};
ghost use Rattle.call_queues.specs.Passing.{HoldsNothing, IsOwner};
ghost use Rattle.call_queues.specs.Standing.{AreLeft, called_at, left_at, stands_in};

use crate::fault::QueueFault;
use crate::queue_owner::QueueOwner;
use crate::worker_queue::WorkerQueue;
use handover::{NumberedItem, Queue, Share};
use std::alloc::{AllocError, Global};
use std::sync::Wait;

/// The call that stands at this number, where it is one of this shard, of so many. Its place is empty then.
fn called<T: Drop>(place: &mut Option<T>, number: u32, shard: usize, shards: usize) -> Option<T>
    ensures called { result ≡ called_at (stands_in shards shard number) place.old }
    ensures left { place.new ≡ left_at (stands_in shards shard number) place.old }
{
    if (number as usize).checked_rem(shards) != Some(shard) {
        return None;
    }
    place.take()
}

/// Puts all calls of a shard into its queue.
fn begin_all<T: Drop, R: Wait>(
    rt: &R,
    queue: &Queue<T>,
    share: &mut Share<T>,
    places: &mut [Option<T>],
    shard: usize,
    shards: usize,
)
    requires share { IsShareOf queue.now share.old }
    requires fresh { hand_of share.old ≡ hand all_parts [] [] [] }
    requires room { length places.old ≤ room_of queue.now }
    requires few { length places.old ≤ plan_calls }
    ensures share { IsShareOf queue.now share.new }
    ensures parts { (hand_of share.new).parts ≡ all_parts }
    ensures nothing { HoldsNothing (hand_of share.new) }
    ensures left { AreLeft (stands_in shards shard) places.old places.new }
{
    let mut number: u32 = 0;
    for place in places.iter_mut() {
        if let Some(load) = called(place, number, shard, shards) {
            queue.begin(rt, share, NumberedItem { number, load });
        }
        number += 1;
    }
}

/// The queue of a shard with all of its calls in it, and its first share.
fn open_queue<T: Drop, R: Wait>(
    rt: &R,
    alloc: Global,
    places: &mut Vec<Option<T>>,
    shard: usize,
    shards: usize,
) -> Result<(Queue<T>, Share<T>), AllocError>
    requires few { vec_len places.old ≤ plan_calls }
    ensures len { vec_len places.new ≡ vec_len places.old }
    ensures share { IfOk result (λ r. IsShareOf r.0 r.1) }
    ensures parts { IfOk result (λ r. (hand_of r.1).parts ≡ all_parts) }
    ensures nothing { IfOk result (λ r. HoldsNothing (hand_of r.1)) }
    ensures left { OnOk result (AreLeft (stands_in shards shard) places.old.items places.new.items) }
{
    let (queue, mut share) = Queue::open(alloc, places.len().max(1))?;
    begin_all(rt, &queue, &mut share, places.as_mut_slice(), shard, shards);
    Ok((queue, share))
}

/// A queue for each of so many shards with its calls, of at most 10,000, and the run's place at each, where none is back yet. No call stands at its place then,
/// unless there is no shard. `NoMemory` where memory ran out. This profile's own.
pub fn open_queues<T: Drop, R: Wait>(
    rt: &R,
    alloc: Global,
    places: &mut Vec<Option<T>>,
    shards: usize,
) -> Result<(Vec<Queue<T>>, Vec<QueueOwner<T>>), QueueFault>
    requires few { vec_len places.old ≤ plan_calls }
    ensures len { vec_len places.new ≡ vec_len places.old }
    ensures left { OnOk result (AreLeft (λ number. nat_lt 0 shards) places.old.items places.new.items) }
    ensures owners { IfOk result (λ r. All (λ o. IsOwner r.0.items o) r.1.items) }
    ensures none { IfOk result (λ r. All (λ o. o.worker_queue.done.items ≡ []) r.1.items) }
{
    let mut queues = Vec::new(alloc);
    let mut owners = Vec::new(alloc);
    for shard in 0..shards {
        let (queue, share) = open_queue(rt, alloc, places, shard, shards)?;
        queues.push(queue)?;
        let worker_queue = WorkerQueue {
            shard,
            share,
            done: Vec::new(alloc),
        };
        owners.push(QueueOwner {
            worker_queue,
            away: 0,
        })?;
    }
    Ok((queues, owners))
}
