//! The shards of a run, each opened with its calls of the plan. What one opens with has nothing to do with another, so threads open them.
ghost use Rattle.std.specs.Prelude.{◌≡◌, ◌++◌, ◌<◌, ◌≤◌, IfOk, OnOk, length, map, vec_len};
ghost use Rattle.std.specs.List.{AllZip, range_with_len};
ghost use Rattle.mg_model.specs.Numbers.{plan_calls};
ghost use Rattle.mg_model.specs.Plans as plans;
ghost use Rattle.planned_calls.specs.Shards.{opened_as};
ghost use Rattle.planned_calls.specs.Parts.{one_in, opened_in};
ghost use Rattle.run_shards.specs.Opening.{AreHandedOut, AreOpened, AreSeated, Begins, HandsOutOwn};

use crate::locked_shard::LockedShard;
use crate::places::{self, Places};
use crate::running::Running;
use agent::Next;
use composition::Checked;
use planned_calls::{CallLog, OpenFault, OpenedCall, PlannedCall, RunFault, Shard, opened_call};
use plans::{Plan, PlanCall};
use rayon::prelude::*;
use std::alloc::{AllocError, Global};
use std::sync::Mutex;
use std::thread::Threads;

/// A shard with its calls, or why it doesn't open.
type OpenedShard<'s, B> = Result<(LockedShard<'s, B>, Vec<Next<'s>>), RunFault>;

/// Adds a call of the plan to those of a shard, one of so many, where it stands there.
fn push_call(
    alloc: Global,
    opened: &mut Vec<OpenedCall>,
    shard: u32,
    count: u32,
    number: u32,
    call: &PlanCall,
) -> Result<(), AllocError>
    requires { 0 < count }
    ensures { OnOk result (map opened_as opened.new.items ≡ map opened_as opened.old.items ++ one_in count shard number call.now) }
{
    if number % count == shard {
        opened.push(opened_call(alloc, number, call)?)?;
    }
    Ok(())
}

/// The calls of the plan that stand in a shard, one of so many.
fn calls_of(
    alloc: Global,
    calls: &[PlanCall],
    shard: u32,
    count: u32,
) -> Result<Vec<OpenedCall>, AllocError>
    requires some { 0 < count }
    requires few { length calls.now ≤ plan_calls }
    ensures { IfOk result (λ opened. map opened_as opened.items ≡ opened_in count shard 0 calls.now) }
{
    let mut opened = Vec::new(alloc);
    let mut number: u32 = 0;
    for call in calls {
        push_call(alloc, &mut opened, shard, count, number, call)?;
        number += 1;
    }
    Ok(opened)
}

/// A shard of the run, one of so many, with its calls.
fn open_shard<'s, B: Running>(
    alloc: Global,
    checked: &'s Checked,
    plan: &Plan,
    number: u32,
    count: u32,
) -> Result<(LockedShard<'s, B>, Vec<Next<'s>>), RunFault>
    requires within { number < count }
    requires shards { count ≤ 16 }
    requires few { length plan.now.calls ≤ plan_calls }
    requires script { B.script ≡ checked.now.table }
    requires calls { B.calls ≡ plan.now.calls }
    requires count { B.count ≡ count }
    ensures { IfOk result (λ opened. AreHandedOut checked.now.table (opened_in count number 0 plan.now.calls) opened.1.items) }
{
    let calls = calls_of(alloc, plan.calls(), number, count)?;
    match Shard::open(alloc, checked, calls, number, count) {
        Ok((shard, nexts)) => {
            let locked = LockedShard::new(alloc, shard, plan.calls().len(), number)?;
            Ok((locked, nexts))
        }
        Err(OpenFault::NoMemory) => Err(RunFault::NoMemory),
        Err(_) => Err(RunFault::Disagree),
    }
}

/// Each shard of the run with its calls, in the order of their numbers, opened by at most as many threads as there are workers, as far as threads can be made.
fn open_each<'s, B: Running + Send + Sync, R: Threads + Sync>(
    rt: &R,
    alloc: Global,
    checked: &'s Checked,
    plan: &Plan,
    workers: usize,
) -> Result<Vec<OpenedShard<'s, B>>, AllocError>
    requires shards { plan.now.shards ≤ 16 }
    requires few { length plan.now.calls ≤ plan_calls }
    requires script { B.script ≡ checked.now.table }
    requires calls { B.calls ≡ plan.now.calls }
    requires count { B.count ≡ plan.now.shards }
    ensures { IfOk result (λ all. AllZip (HandsOutOwn checked.now.table plan.now.calls plan.now.shards) (range_with_len 0 plan.now.shards) all.items) }
{
    let count = u32::from(plan.shards());
    // Of parts as large as this the shards have at most as many as there are workers.
    let least = count as usize / workers.saturating_add(1) + 1;
    (0..count)
        .into_par_iter()
        .with_min_len(least)
        .map(
            |number: u32| -> OpenedShard<'_, B>
                requires within { number < count }
                requires shards { count ≤ 16 }
                requires few { length plan.now.calls ≤ plan_calls }
                requires script { B.script ≡ checked.now.table }
                requires calls { B.calls ≡ plan.now.calls }
                requires count { B.count ≡ count }
                ensures { HandsOutOwn checked.entry.now.table plan.entry.now.calls count number result }
            { open_shard(alloc, checked, plan, number, count) },
        )
        .collect(rt, alloc)
}

/// A call on its way, of which no step is begun.
fn started<'s>(alloc: Global, call: Next<'s>) -> PlannedCall<'s>
    ensures { Begins call.entry result }
{
    let standing = call.call();
    PlannedCall {
        next: call,
        standing,
        log: CallLog {
            trail: Vec::new(alloc),
            begun: 0,
            place: 0,
        },
    }
}

/// Puts calls at their numbers in the plan. `Disagree` where one has no place.
fn seat<'s>(alloc: Global, nexts: Vec<Next<'s>>, places: &mut Places<'s>) -> Result<(), RunFault>
    ensures len { vec_len places.new ≡ vec_len places.old }
    ensures seated { OnOk result (AreSeated nexts.entry.items places.old.items places.new.items) }
{
    for next in nexts {
        let planned = started(alloc, next);
        let Some(place) = places.get_mut(planned.standing.0 as usize) else {
            return Err(RunFault::Disagree);
        };
        *place = Some(planned);
    }
    Ok(())
}

/// All shards of a run, at most 16, each under its lock, and the calls of the plan, each at its number, where it is opened and no step of it is begun. At most
/// as many threads as there are workers open the shards, as far as threads can be made. `Disagree` where a shard can't open with its calls, and `NoMemory`
/// where memory ran out; the fault of the first of several shards that can't. This profile's own.
pub fn open_all<'s, B: Running + Send + Sync, R: Threads + Sync>(
    rt: &R,
    alloc: Global,
    checked: &'s Checked,
    plan: &Plan,
    workers: usize,
) -> Result<(Vec<Mutex<LockedShard<'s, B>>>, Places<'s>), RunFault>
    requires shards { plan.now.shards ≤ 16 }
    requires few { length plan.now.calls ≤ plan_calls }
    requires script { B.script ≡ checked.now.table }
    requires calls { B.calls ≡ plan.now.calls }
    requires count { B.count ≡ plan.now.shards }
    ensures shards { IfOk result (λ opened. vec_len opened.0 ≡ plan.now.shards) }
    ensures places { IfOk result (λ opened. vec_len opened.1 ≡ length plan.now.calls) }
    ensures opened { IfOk result (λ opened. 0 < plan.now.shards → AreOpened checked.now.table plan.now.calls opened.1.items) }
{
    let all = open_each(rt, alloc, checked, plan, workers)?;
    let mut shards = Vec::new(alloc);
    let mut places = places::empty(alloc, plan.calls().len())?;
    for opened in all {
        let (kept, nexts) = opened?;
        shards.push(Mutex::new(kept))?;
        seat(alloc, nexts, &mut places)?;
    }
    Ok((shards, places))
}
