//! A whole run of a plan.
ghost use Rattle.std.specs.Prelude.{◌≡◌, ◌≤◌, IfOk, length, vec_len};
ghost use Rattle.mg_model.specs.Numbers.{plan_calls};
ghost use Rattle.plans.specs.Accepted.{IsPlanFor};
ghost use Rattle.run_account.specs.Runs.{HasRun, IsRunOf};
ghost use Rattle.runner.specs.OnlyReport.{IsOnlyReport};

use composition::Checked;
use mg_reports::one_report::one_report;
use plans::Plan;
use run_account::{Gate, Outcome, PlannedRun, RunFault, finish};
use std::alloc::Global;
use std::sync::Wait;
use std::thread::Threads;
use workers::run_calls;

/// The most calls of a plan.
const MOST_CALLS: usize = 10_000;

/// The most workers of a run.
const MOST_WORKERS: usize = 64;

/// A run of a plan on so many workers, and the account of it.
fn go<'s, G: Gate, R: Threads + Wait + Sync>(
    rt: &R,
    alloc: Global,
    checked: &'s Checked,
    plan: &Plan,
    workers: usize,
    gate: &G,
) -> Result<Outcome<'s>, RunFault>
    requires plan { IsPlanFor checked.now.table plan.now }
    requires few { length plan.now.calls ≤ plan_calls }
    ensures { IfOk result (λ outcome. IsRunOf checked.now.table plan.now outcome) }
{
    let (played, planned_calls) = run_calls(rt, alloc, checked, plan, workers, gate)?;
    let run = PlannedRun { checked, plan };
    finish(rt, alloc, run, played, planned_calls, workers)
}

/// Runs a plan of calls of a checked script, which was read with that script, on 1 to 64 workers, over as many gateways as the plan has shards. Calls pass
/// from worker to worker, each does a few steps of one at a time, and the gate lets each step pass. What comes out is a run of the plan: in each shard each call
/// took the plan's steps, epoch by epoch, and a step is idle where no event that it means could happen. `BadWorkers` for another number of workers, then
/// `TooManyCalls` for more than 10,000 calls; `Disagree` where what the shards keep isn't what the calls went through, which no test has met, and `NoMemory`
/// where memory ran out. Where no call of the plan has `restart` steps of other calls, its report is the only one that the calls can have, on any number of
/// workers and in any number of shards. This profile's own.
pub fn run<'s, G: Gate, R: Threads + Wait + Sync>(
    rt: &R,
    alloc: Global,
    checked: &'s Checked,
    plan: &Plan,
    workers: usize,
    gate: &G,
) -> Result<Outcome<'s>, RunFault>
    requires { IsPlanFor checked.now.table plan.now }
    ensures run { HasRun checked.now.table plan.now workers result }
    ensures report { IfOk result (λ outcome. IsOnlyReport checked.now.table plan.now outcome.lines) }
{
    if workers == 0 || workers > MOST_WORKERS {
        return Err(RunFault::BadWorkers);
    }
    if plan.calls().len() > MOST_CALLS {
        return Err(RunFault::TooManyCalls);
    }
    match go(rt, alloc, checked, plan, workers, gate) {
        Ok(outcome) => {
            checked.is_checked();
            one_report();
            Ok(outcome)
        }
        Err(RunFault::NoMemory) => Err(RunFault::NoMemory),
        Err(_) => Err(RunFault::Disagree),
    }
}
