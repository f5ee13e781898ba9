//! Whether the steps that are counted in the shards are all of the plan's: none of a call is left, in no epoch, and each restart is counted. And whether all
//! shards ended each epoch after as many restarts.
ghost use Rattle.std.specs.Prelude.{◌≡◌, ◌+◌, ◌<◌, ◌≤◌, false, IsTrue, length, max};
ghost use Rattle.std.specs.List.{All};
ghost use Rattle.mg_model.specs.Numbers.{plan_calls};
ghost use Rattle.mg_model.specs.Plans.{epochs_of};
ghost use Rattle.run_account.specs.TakenAll.{EndTogether, HasNotTakenAll, HasOneLeft, HasOtherEnds, HasTakenAll, HaveTakenAll, ends_of_first};

use run_shards::{PlanTotals, ShardCount};

/// Whether it is the plan's last epoch. Where no call has an epoch, the first is the last.
fn is_last_epoch(count: &ShardCount, totals: &PlanTotals<'_>) -> bool
    ensures yes { IsTrue result → count.now.epoch + 1 ≡ max 1 (epochs_of totals.now.calls) }
    ensures no { result ≡ false → count.now.epoch + 1 ≡ max 1 (epochs_of totals.now.calls) → ⊥ }
{
    count.epoch == totals.epochs().saturating_sub(1)
}

/// Whether the steps that are counted in the shard with a number are all of the plan's.
fn has_taken_all(count: &ShardCount, totals: &PlanTotals<'_>, number: u32) -> bool
    requires few { length totals.now.calls ≤ plan_calls }
    requires some { 0 < totals.now.shards }
    requires all { length count.now.places.items ≡ length totals.now.calls }
    ensures yes { IsTrue result → HasTakenAll totals.now number count.now }
    ensures no { result ≡ false → HasNotTakenAll totals.now number count.now }
{
    if !count.is_whole {
        return false;
    }
    if !is_last_epoch(count, totals) {
        return false;
    }
    if count.restarts != totals.restarts() {
        return false;
    }
    let plan = totals.plan();
    count.is_at_end(plan, u32::from(plan.shards()), number)
}

/// Whether the steps that are counted in each shard are all of the plan's.
pub(crate) fn have_taken_all(counts: &[ShardCount], totals: &PlanTotals<'_>) -> bool
    requires few { length totals.now.calls ≤ plan_calls }
    requires some { 0 < totals.now.shards }
    requires few_shards { length counts.now ≤ 16 }
    requires all { All (λ count. length count.places.items ≡ length totals.now.calls) counts.now }
    ensures yes { IsTrue result → HaveTakenAll totals.now 0 counts.now }
    ensures no { result ≡ false → HasOneLeft totals.now counts.now }
{
    let mut number: u32 = 0;
    for count in counts {
        if !has_taken_all(count, totals, number) {
            return false;
        }
        number += 1;
    }
    true
}

/// How many restarts calls had asked for at the end of each epoch, in the first shard.
fn first_ends(counts: &[ShardCount]) -> &[usize]
    ensures { result.now ≡ ends_of_first counts.now }
{
    match counts.first() {
        Some(count) => count.ends.as_slice(),
        None => &[],
    }
}

/// Whether in a shard they had asked for as many.
fn ends_as(count: &ShardCount, ends: &[usize]) -> bool
    ensures yes { IsTrue result → count.now.ends.items ≡ ends.now }
    ensures no { result ≡ false → count.now.ends.items ≡ ends.now → ⊥ }
{
    count.ends.as_slice() == ends
}

/// Whether in each shard every epoch ended after as many restarts as in the first.
pub(crate) fn end_together(counts: &[ShardCount]) -> bool
    ensures yes { IsTrue result → EndTogether counts.now }
    ensures no { result ≡ false → HasOtherEnds counts.now }
{
    let ends = first_ends(counts);
    for count in counts {
        if !ends_as(count, ends) {
            return false;
        }
    }
    true
}
