//! The report of a run: for each call of the plan the lines that its shard counts, the last one as the shard shows the call that stands. They have to be what the
//! shards and transcripts leave. The calls have nothing to do with each other here, so threads tell them.
ghost use Rattle.std.specs.Prelude.{◌≡◌, ◌<◌, ℕ, [], Contains, IfErr, IfNone, IfOk, IfSome, MatchResult, length, slice_index_or};
ghost use Rattle.std.specs.List.{flat_map, range_with_len, AllZip};
ghost use Rattle.run_shards.specs.Disagreements.{IsBecause, last_number};
ghost use Rattle.run_shards.specs.ReportLines.{IsReportOf};
ghost use Rattle.run_account.specs.CallReport.{AreCountedLines, HavePlayed, IsTold, number_standing};
ghost use Rattle.run_account.specs.Comparing.{trails_of};
ghost use Rattle.run_account.specs.Disagreements.{HasNotTold, IsNotCounted, IsNotTold};
ghost use Rattle.run_account.specs.FinalState.{HaveLines, IsLeftAmong};

use crate::final_state::are_left;
use composition::Checked;
use mg_names::identifiers::CallNo;
use mg_reports::laws;
use mg_reports::one_report::logs_tell_reports;
use rayon::prelude::*;
use run_shards::{
    CallCount, Line, PLAN_CALLS, PlanTotals, PlannedCall, RunFault, Shard, ShardCount, lines_of,
    phase_of,
};
use script_table::Script;
use std::alloc::{AllocError, Global};
use std::thread::Threads;

/// What a report is told from.
#[derive(Drop)]
pub(crate) struct Source<'a, 's> {
    /// The script.
    pub(crate) checked: &'a Checked,
    /// The plan, with what is counted over it.
    pub(crate) totals: PlanTotals<'a>,
    /// The shards, in the order of their numbers.
    pub(crate) shards: &'a [Shard<'s>],
    /// What is counted of the calls of each, in the same order.
    pub(crate) counts: &'a [ShardCount],
    /// The calls of the plan, in their order.
    pub(crate) planned_calls: &'a [PlannedCall<'s>],
}

/// The number of the call that stands of a call of the plan, of which this is counted; nothing where the numbers end.
fn number_of(number: u32, own: &CallCount) -> Option<CallNo>
    ensures number { IfSome result (λ standing. standing.0 ≡ number_standing number own.now) }
    ensures none { IfNone result (last_number < number_standing number own.now) }
{
    let begun = u32::try_from(own.gone.len()).ok()?;
    let before = PLAN_CALLS.checked_mul(begun)?;
    Some(CallNo(before.checked_add(number)?))
}

/// The lines of a call of the plan, as its shard counts and shows them. `Disagree` where it doesn't, and `NoMemory` where memory ran out.
fn counted_lines(
    alloc: Global,
    script: &Script,
    shard: &Shard<'_>,
    count: &ShardCount,
    number: u32,
) -> Result<Vec<Line>, RunFault>
    ensures counted { IfOk result (λ lines. AreCountedLines script.now shard.now count.now number lines.items) }
    ensures not_counted { IfErr result (IsBecause (IsNotCounted shard.now count.now number)) }
{
    let Some(own) = count.counts.get(number as usize) else {
        return Err(RunFault::Disagree);
    };
    let Some(call) = number_of(number, own) else {
        return Err(RunFault::Disagree);
    };
    let Some(standing) = shard.standing(call) else {
        return Err(RunFault::Disagree);
    };
    let phase = phase_of(script, standing, shard.association());
    Ok(lines_of(alloc, number, own, standing.state, phase)?)
}

/// The lines of the call of the plan with a number, as its shard counts them and as the run leaves it.
fn call_report(alloc: Global, source: &Source<'_, '_>, place: usize) -> Result<Vec<Line>, RunFault>
    ensures told { IfOk result (λ lines. IsTold source.now.checked.now.table source.now.totals source.now.shards.now source.now.counts.now (trails_of source.now.planned_calls.now) place lines.items) }
    ensures not_told { IfErr result (IsBecause (IsNotTold source.now.checked.now.table source.now.totals source.now.shards.now source.now.counts.now source.now.planned_calls.now place)) }
{
    let Ok(number) = u32::try_from(place) else {
        return Err(RunFault::Disagree);
    };
    let count = u32::from(source.totals.plan().shards());
    let Some(own) = number.checked_rem(count) else {
        return Err(RunFault::Disagree);
    };
    let Some(shard) = source.shards.get(own as usize) else {
        return Err(RunFault::Disagree);
    };
    let Some(counted) = source.counts.get(own as usize) else {
        return Err(RunFault::Disagree);
    };
    let script = source.checked.script();
    let lines = counted_lines(alloc, script, shard, counted, number)?;
    if !are_left(
        script,
        count,
        source.shards,
        source.planned_calls,
        number,
        lines.as_slice(),
    ) {
        return Err(RunFault::Disagree);
    }
    Ok(lines)
}

/// The lines of each call of the plan, told by at most as many threads as there are workers, as far as threads can be made.
fn all_reports<R: Threads + Sync>(
    rt: &R,
    alloc: Global,
    source: &Source<'_, '_>,
    workers: usize,
) -> Result<Vec<Vec<Line>>, RunFault>
    ensures told { IfOk result (λ all. AllZip (λ place lines. IsTold source.now.checked.now.table source.now.totals source.now.shards.now source.now.counts.now (trails_of source.now.planned_calls.now) place lines.items) (range_with_len 0 (length source.now.totals.calls)) all.items) }
    ensures not_told { IfErr result (IsBecause (HasNotTold source.now.checked.now.table source.now.totals source.now.shards.now source.now.counts.now source.now.planned_calls.now)) }
{
    let count = source.totals.plan().calls().len();
    // Of parts as large as this the plan has at most as many as there are workers.
    let least = count / workers.saturating_add(1) + 1;
    let all = (0..count)
        .into_par_iter()
        .with_min_len(least)
        .map(
            |place: usize| -> Result<Vec<Line>, RunFault>
                ensures { MatchResult result (λ lines. IsTold source.entry.now.checked.now.table source.entry.now.totals source.entry.now.shards.now source.entry.now.counts.now (trails_of source.entry.now.planned_calls.now) place lines.items) (IsBecause (IsNotTold source.entry.now.checked.now.table source.entry.now.totals source.entry.now.shards.now source.entry.now.counts.now source.entry.now.planned_calls.now place)) }
            { call_report(alloc, source, place) },
        )
        .collect(rt, alloc)?;
    all
}

/// The lines of all calls, one call after the other.
fn joined(alloc: Global, all: &[Vec<Line>]) -> Result<Vec<Line>, AllocError>
    ensures { IfOk result (λ lines. lines.items ≡ flat_map (λ own. own.items) all.now) }
{
    let mut lines = Vec::new(alloc);
    for own in all {
        lines.extend_from_slice(own.as_slice())?;
    }
    Ok(lines)
}

/// The lines of all calls of the plan.
pub(crate) fn report<R: Threads + Sync>(
    rt: &R,
    alloc: Global,
    source: &Source<'_, '_>,
    workers: usize,
) -> Result<Vec<Line>, RunFault>
    requires { HavePlayed source.now.checked.now.table source.now.totals source.now.shards.now source.now.counts.now }
    ensures report { IfOk result (λ lines. IsReportOf source.now.checked.now.table source.now.totals lines.items) }
    ensures all { IfOk result (λ lines. (number : ℕ) → number < length source.now.totals.calls → HaveLines (slice_index_or (trails_of source.now.planned_calls.now) number []) lines.items) }
    ensures left { IfOk result (λ lines. (l : Line) → Contains lines.items l → IsLeftAmong source.now.checked.now.table source.now.totals.shards source.now.shards.now (trails_of source.now.planned_calls.now) l) }
    ensures not_told { IfErr result (IsBecause (HasNotTold source.now.checked.now.table source.now.totals source.now.shards.now source.now.counts.now source.now.planned_calls.now)) }
{
    laws::reports_add_up();
    logs_tell_reports();
    source.checked.is_checked();
    let all = all_reports(rt, alloc, source, workers)?;
    let lines = joined(alloc, all.as_slice())?;
    Ok(lines)
}
