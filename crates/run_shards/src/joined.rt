//! What comes back once all workers are joined: the shards out of their locks, what is counted of their calls, and all calls.
ghost use Rattle.std.specs.Prelude.{◌≡◌, IfOk, map, vec_len};
ghost use Rattle.planned_calls.specs.RunShards.{AreOfRun};
ghost use Rattle.run_shards.specs.Counting.{AreCounted};

use crate::locked_shard::LockedShard;
use crate::places::Places;
use crate::running::Running;
use crate::shard_count::ShardCount;
use planned_calls::{PlannedCall, RunFault, Shard};
use std::alloc::Global;
use std::sync::Mutex;

/// The shards of a run, in the order of their numbers, and beside them what is counted of the calls of each.
#[derive(Drop)]
pub struct PlayedShards<'s> {
    /// The shards.
    pub shards: Vec<Shard<'s>>,
    /// What is counted of their calls.
    pub counts: Vec<ShardCount>,
}

/// The shards, out of their locks, in the order of their numbers. `Disagree` where one stands at another's number, and `NoMemory` where memory ran out. This
/// profile's own.
pub fn unlocked<'s, B: Running>(
    alloc: Global,
    locks: Vec<Mutex<LockedShard<'s, B>>>,
) -> Result<PlayedShards<'s>, RunFault>
    ensures shards { IfOk result (λ played. AreOfRun B.script B.calls B.count 0 played.shards.items) }
    ensures counted { IfOk result (λ played. AreCounted B.script B.calls B.count 0 played.shards.items played.counts.items) }
{
    let mut shards = Vec::new(alloc);
    let mut counts = Vec::new(alloc);
    let mut place: u32 = 0;
    for lock in locks {
        let (shard, count, number) = lock.into_inner().parts();
        if number != place {
            return Err(RunFault::Disagree);
        }
        shards.push(shard)?;
        counts.push(count)?;
        let Some(next) = place.checked_add(1) else {
            return Err(RunFault::Disagree);
        };
        place = next;
    }
    Ok(PlayedShards { shards, counts })
}

/// The calls of the plan, all of them, in the order of their places. `Disagree` where one is away still, and `NoMemory` where memory ran out. This profile's
/// own.
pub fn all_planned<'s>(alloc: Global, places: Places<'s>) -> Result<Vec<PlannedCall<'s>>, RunFault>
    ensures len { IfOk result (λ planned_calls. vec_len planned_calls ≡ vec_len places.entry) }
    ensures same { IfOk result (λ planned_calls. map (λ planned. Some planned) planned_calls.items ≡ places.entry.items) }
{
    let mut planned_calls = Vec::new(alloc);
    for place in places {
        let Some(planned) = place else {
            return Err(RunFault::Disagree);
        };
        planned_calls.push(planned)?;
    }
    Ok(planned_calls)
}
