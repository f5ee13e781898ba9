//! The end of a run, once its threads are joined: the shards come out of their locks, with all steps of the plan counted in them, their histories are compared with
//! what the calls went through, and are left of them.
ghost use Rattle.std.specs.Prelude.{◌≡◌, ◌≤◌, false, IfErr, IfOk, IsTrue, length, map, vec_len};
ghost use Rattle.mg_model.specs.Numbers.{plan_calls};
ghost use Rattle.mg_model.specs.Script.{Script};
ghost use Rattle.plans.specs.Accepted.{IsPlanFor};
ghost use Rattle.run_account.specs.Finishing.{AreFinished, HasUnfinished, IsFinished, IsUnfinished};
ghost use Rattle.run_shards.specs.Disagreements.{IsBecause};
ghost use Rattle.run_shards.specs.RunShards.{AreOfRun};
ghost use Rattle.run_shards.specs.Counting.{AreCounted};
ghost use Rattle.run_account.specs.Disagreements.{Disagreement, restarts_of_first};
ghost use Rattle.run_account.specs.Comparing.{trails_of};
ghost use Rattle.run_account.specs.Merging.{one_history};
ghost use Rattle.run_account.specs.Runs.{IsOutcome, IsRunOf};

use crate::compare::{self, agree};
use crate::histories::histories;
use crate::outcome::Outcome;
use crate::report::{Source, report};
use crate::taken_all::{end_together, have_taken_all};
use composition::Checked;
use mg_merge::laws;
use plans::Plan;
use run_shards::{Line, PlanTotals, PlannedCall, PlayedShards, RunFault, Shard, ShardCount};
use std::alloc::Global;
use std::thread::Threads;

/// The most executes of a plan: 10,000 calls of 1,000 steps each.
const MOST_EXECUTES: usize = 10_000_000;

/// Whether a shard was restarted so often, and executed no more than a plan may.
fn has_finished(shard: &Shard<'_>, restarts: usize) -> bool
    ensures yes { IsTrue result → IsFinished restarts shard.now }
    ensures no { result ≡ false → IsUnfinished restarts shard.now }
{
    shard.keeps_its_run();
    shard.identifiers_lasted();
    if compare::restarts_in(shard.history()) != restarts {
        return false;
    }
    compare::executes_in(shard.history()) <= MOST_EXECUTES
}

/// Whether all shards were restarted so often, and none executed more than a plan may.
fn have_finished(shards: &[Shard<'_>], restarts: usize) -> bool
    ensures yes { IsTrue result → AreFinished restarts shards.now }
    ensures no { result ≡ false → HasUnfinished restarts shards.now }
{
    for shard in shards {
        if !has_finished(shard, restarts) {
            return false;
        }
    }
    true
}

/// How often the first shard was restarted.
fn restarts_of(shards: &[Shard<'_>]) -> usize
    ensures { result ≡ restarts_of_first shards.now }
{
    match shards.first() {
        Some(shard) => compare::restarts_in(shard.history()),
        None => 0,
    }
}

/// A plan, with the script that it is for.
#[derive(Clone, Copy)]
pub struct PlannedRun<'a> {
    /// The script.
    pub checked: &'a Checked,
    /// The plan.
    pub plan: &'a Plan,
}

/// The shards of a run, and what is counted of the calls of each.
#[derive(Clone, Copy)]
struct CountedShards<'a, 's> {
    /// The shards, in the order of their numbers.
    shards: &'a [Shard<'s>],
    /// What is counted of the calls of each, in the same order.
    counts: &'a [ShardCount],
}

/// What is told of the shards of a run and of its calls, where they agree.
#[derive(Drop)]
struct Told {
    /// How often each shard was restarted.
    restarts: usize,
    /// The report.
    report: Vec<Line>,
}

/// The report of a run, where its shards and its calls agree: `Disagree` where they don't, as `finish` says, and `NoMemory` where memory ran out.
fn tell<'a, 's, R: Threads + Sync>(
    rt: &R,
    alloc: Global,
    run: PlannedRun<'a>,
    played: CountedShards<'a, 's>,
    planned_calls: &[PlannedCall<'s>],
    workers: usize,
) -> Result<Told, RunFault>
    requires plan { IsPlanFor run.checked.now.table run.plan.now }
    requires few { length run.plan.now.calls ≤ plan_calls }
    requires kept { AreOfRun run.checked.now.table run.plan.now.calls run.plan.now.shards 0 played.shards.now }
    requires counted { AreCounted run.checked.now.table run.plan.now.calls run.plan.now.shards 0 played.shards.now played.counts.now }
    requires all { length planned_calls.now ≡ length run.plan.now.calls }
    ensures outcome { IfOk result (λ told. IsOutcome (one_history (map (λ v. v.history) played.entry.shards.now) told.restarts) (trails_of planned_calls.now)) }
    ensures run { IfOk result (λ told. IsRunOf run.entry.checked.now.table run.entry.plan.now (record { history = one_history (map (λ v. v.history) played.entry.shards.now) told.restarts; trails = trails_of planned_calls.now; lines = told.report.items })) }
    ensures disagreement { IfErr result (IsBecause (Disagreement run.entry.checked.now.table run.entry.plan.now played.entry.shards.now played.entry.counts.now planned_calls.now)) }
{
    laws::merges_are_runs();
    let PlannedRun { checked, plan } = run;
    let CountedShards { shards, counts } = played;
    if shards.len() != usize::from(plan.shards()) {
        return Err(RunFault::Disagree);
    }
    let restarts = restarts_of(shards);
    if !have_finished(shards, restarts) {
        return Err(RunFault::Disagree);
    }
    let Some(totals) = PlanTotals::new(plan) else {
        return Err(RunFault::Disagree);
    };
    if !have_taken_all(counts, &totals) {
        return Err(RunFault::Disagree);
    }
    if !end_together(counts) {
        return Err(RunFault::Disagree);
    }
    let count = u32::from(plan.shards());
    let agreed = agree(rt, alloc, workers, count, shards, planned_calls)?;
    if !agreed {
        return Err(RunFault::Disagree);
    }
    let source = Source {
        checked,
        totals,
        shards,
        counts,
        planned_calls,
    };
    let report = report(rt, alloc, &source, workers)?;
    Ok(Told { restarts, report })
}

/// What a run of a plan on so many workers came to: `Disagree` where the shards weren't restarted equally often, where the steps that are counted in one aren't all
/// of the plan's, where an epoch ended in one after other restarts, or where they have another history than the calls went through, and `NoMemory` where memory
/// ran out.
pub fn finish<'a, 's, R: Threads + Sync>(
    rt: &R,
    alloc: Global,
    run: PlannedRun<'a>,
    played: PlayedShards<'s>,
    planned_calls: Vec<PlannedCall<'s>>,
    workers: usize,
) -> Result<Outcome<'s>, RunFault>
    requires plan { IsPlanFor run.checked.now.table run.plan.now }
    requires few { length run.plan.now.calls ≤ plan_calls }
    requires kept { AreOfRun run.checked.now.table run.plan.now.calls run.plan.now.shards 0 played.shards.items }
    requires counted { AreCounted run.checked.now.table run.plan.now.calls run.plan.now.shards 0 played.shards.items played.counts.items }
    requires all { vec_len planned_calls ≡ length run.plan.now.calls }
    ensures run { IfOk result (λ outcome. IsRunOf run.entry.checked.now.table run.entry.plan.now outcome) }
    ensures disagreement { IfErr result (IsBecause (Disagreement run.entry.checked.now.table run.entry.plan.now played.entry.shards.items played.entry.counts.items planned_calls.entry.items)) }
{
    let PlayedShards { shards, counts } = played;
    let counted = CountedShards {
        shards: shards.as_slice(),
        counts: counts.as_slice(),
    };
    let told = tell(rt, alloc, run, counted, planned_calls.as_slice(), workers)?;
    let histories = histories(rt, shards)?;
    let Told { restarts, report } = told;
    Ok(Outcome {
        histories,
        restarts,
        report,
        planned_calls,
    })
}
