//! What the shards of a run went through, once nothing else of them is asked for.
ghost use Rattle.std.specs.Prelude.{◌≡◌, IfOk, map};

use mg_model::events::Event;
use run_shards::Shard;
use std::alloc::AllocError;
use std::thread;
use std::thread::Threads;

/// The histories of the shards, in their order. All else that the shards hold is let go, that of each in a thread of its own, as far as threads can be made: there
/// are 16 shards at most, and to let go of all messages of a long run takes a tenth of it. `AllocError` where memory ran out.
pub(crate) fn histories<R: Threads + Sync>(
    rt: &R,
    shards: Vec<Shard<'_>>,
) -> Result<Vec<Vec<Event>>, AllocError>
    ensures { IfOk result (λ histories. map (λ history. history.items) histories.items ≡ map (λ v. v.history) shards.entry.items) }
{
    let histories = thread::map_vec(
        rt,
        shards,
        &|shard: Shard<'_>| -> Vec<Event>
            ensures { result.items ≡ shard.entry.history }
        { shard.into_history() },
    )?;
    Ok(histories)
}
