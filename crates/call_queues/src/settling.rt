//! Calls back at their places, once no worker has one.
ghost use Rattle.std.specs.Prelude.{◌≡◌, IfErr, OnOk, vec_len};
ghost use Rattle.std.specs.List.{All};
ghost use Rattle.call_queues.specs.Passing.{IsAllBack, IsOwner};
ghost use Rattle.call_queues.specs.Seating.{AreSeated, IsPastLast, all_done};

use crate::fault::QueueFault;
use crate::queue_owner::QueueOwner;
use handover::{NumberedItem, Queue};
use std::sync::Wait;

/// Puts each call at its number, in place of one that stands there. `Disagree` where one is past the last: those before it are at their numbers then.
fn seat<T: Drop>(items: Vec<NumberedItem<T>>, places: &mut Vec<Option<T>>) -> Result<(), QueueFault>
    ensures len { vec_len places.new ≡ vec_len places.old }
    ensures seated { OnOk result (AreSeated items.items places.old.items places.new.items) }
    ensures past { IfErr result (λ fault. (fault ≡ QueueFault.Disagree) × IsPastLast items.items places.old.items places.new.items) }
{
    for item in items {
        let NumberedItem { number, load } = item;
        let Some(place) = places.get_mut(number as usize) else {
            return Err(QueueFault::Disagree);
        };
        *place = Some(load);
    }
    Ok(())
}

/// Puts the calls of a queue back at their numbers. `Disagree` where a worker has a part of its share still, where a call stands in the queue still, or where a
/// call has no place.
fn settle_one<T: Drop, R: Wait>(
    rt: &R,
    queues: &[Queue<T>],
    owner: QueueOwner<T>,
    places: &mut Vec<Option<T>>,
) -> Result<(), QueueFault>
    requires { IsOwner queues.now owner }
    ensures len { vec_len places.new ≡ vec_len places.old }
    ensures all { OnOk result (IsAllBack owner) }
    ensures seated { OnOk result (AreSeated owner.worker_queue.done.items places.old.items places.new.items) }
    ensures fault { IfErr result (λ fault. fault ≡ QueueFault.Disagree) }
{
    let QueueOwner {
        mut worker_queue,
        away,
    } = owner;
    if away > 0 {
        return Err(QueueFault::Disagree);
    }
    let Some(queue) = queues.get(worker_queue.shard) else {
        unreachable!()
    };
    // Whoever puts a call back looks for another one there, so none stands where all workers found none.
    let None = queue.take(rt, &mut worker_queue.share) else {
        return Err(QueueFault::Disagree);
    };
    seat(worker_queue.done, places)
}

/// Puts the calls that came back from all queues at their numbers, in place of what stands there, and leaves all other places: they are all that went in.
/// `Disagree` where a worker has a part of a share still, where a call stands in a queue still, or where a call has no place. This profile's own.
pub fn settle<T: Drop, R: Wait>(
    rt: &R,
    queues: &[Queue<T>],
    owners: Vec<QueueOwner<T>>,
    places: &mut Vec<Option<T>>,
) -> Result<(), QueueFault>
    requires { All (λ o. IsOwner queues.now o) owners.items }
    ensures len { vec_len places.new ≡ vec_len places.old }
    ensures all { OnOk result (All IsAllBack owners.items) }
    ensures seated { OnOk result (AreSeated (all_done owners.items) places.old.items places.new.items) }
    ensures fault { IfErr result (λ fault. fault ≡ QueueFault.Disagree) }
{
    for owner in owners {
        settle_one(rt, queues, owner, places)?;
    }
    Ok(())
}
