//! What the shards keep beside what the calls went through: one walk through each history, with a place in the transcripts of each call. A shard has nothing of
//! the calls of another one, so threads walk.
ghost use Rattle.std.specs.Prelude.{◌≡◌, ◌∷◌, ◌⊎◌, [], ◌++◌, ◌≤◌, false, IfNone, IfOk, IfSome, IsTrue, OnOk, length, map, nat_le, slice_get, slice_index_or, take};
ghost use Rattle.std.specs.List.{range_with_len, AllZip};
ghost use Rattle.mg_model.specs.Shards.{restarts_in};
ghost use Rattle.mg_merge.specs.Identifiers.{executes_in, executes_of};
ghost use Rattle.run_account.specs.Comparing.{Agree, Differ, Follows, IsAtEnd, IsCompared, IsNotNext, Strays, StraysIn, restarts_of, trails_of};
ghost use Rattle.run_shards.specs.Taking.{trail_of};
ghost use Rattle.run_shards.specs.Parts.{of_call};
ghost use Rattle.agent.specs.Calls.{value_of};

use agent::Next;
use mg_model::events::{CallEvent, Event};
use mg_names::identifiers::CallNo;
use rayon::prelude::*;
use run_shards::{PLAN_CALLS, PlannedCall, Shard};
use std::alloc::{AllocError, Global};
use std::thread::Threads;

/// 1 for a restart, and 0 for an event of a call.
fn restarts_of(event: &Event) -> usize
    ensures value { result ≡ restarts_of event.now }
    ensures few { result ≤ 1 }
{
    match event {
        Event::Restart => 1,
        Event::OfCall { .. } => 0,
    }
}

/// How often a history was restarted.
pub(crate) fn restarts_in(history: &[Event]) -> usize
    ensures { result ≡ restarts_in history.now }
{
    let mut restarts = 0;
    for event in history {
        restarts += restarts_of(event);
    }
    restarts
}

/// 1 for an execute, and 0 for any other event.
fn executes_of(event: &Event) -> usize
    ensures value { result ≡ executes_of event.now }
    ensures few { result ≤ 1 }
{
    match event {
        Event::OfCall {
            event: CallEvent::Execute { .. },
            ..
        } => 1,
        _ => 0,
    }
}

/// How many executes a history has.
pub(crate) fn executes_in(history: &[Event]) -> usize
    ensures { result ≡ executes_in history.now }
{
    let mut executes = 0;
    for event in history {
        executes += executes_of(event);
    }
    executes
}

/// Adds those of these events that are of a call.
pub(crate) fn push_of(
    call: CallNo,
    from: &[Event],
    events: &mut Vec<Event>,
) -> Result<(), AllocError>
    ensures { OnOk result (events.new.items ≡ events.old.items ++ of_call call.0 from.now) }
{
    for event in from {
        if let Event::OfCall { call: of, .. } = *event
            && of == call
        {
            events.push(*event)?;
        }
    }
    Ok(())
}

/// Whether nothing happened behind a place to a call of the plan, with all that began within it.
pub(crate) fn ends_at(planned: &PlannedCall<'_>, place: usize) -> bool
    ensures { result ≡ nat_le (length (trail_of planned.now)) place }
{
    let all = planned
        .log
        .trail
        .len()
        .checked_add(planned.next.transcript().len());
    match all {
        Some(all) => all <= place,
        None => false,
    }
}

/// What happened at a place to a call of the plan, with all that began within it.
pub(crate) fn event_at(planned: &PlannedCall<'_>, place: usize) -> Option<Event>
    ensures { result ≡ slice_get (trail_of planned.now) place }
{
    let before = planned.log.trail.len();
    if place < before {
        return planned.log.trail.as_slice().get(place).copied();
    }
    planned.next.transcript().get(place - before).copied()
}

/// The place behind an event in the transcripts of a call of the plan. Nothing, where the event isn't the next one there.
fn place_behind(event: &Event, planned: &PlannedCall<'_>, place: usize) -> Option<usize>
    ensures next { IfSome result (λ next. take next (trail_of planned.now) ≡ take place (trail_of planned.now) ++ event.now ∷ []) }
    ensures none { IfNone result (IsNotNext event.now (trail_of planned.now) place) }
{
    if event_at(planned, place) != Some(*event) {
        return None;
    }
    place.checked_add(1)
}

/// Goes along the transcripts by one event of a shard. No, where it isn't the next one of its call, or isn't of a call of this shard.
fn follow_event(
    count: u32,
    shard: usize,
    event: &Event,
    planned_calls: &[PlannedCall<'_>],
    places: &mut [usize],
) -> bool
    requires { length places.old ≡ length planned_calls.now }
    ensures follows { IsTrue result → Follows count shard (event.now ∷ []) (trails_of planned_calls.now) places.old places.new }
    ensures strays { result ≡ false → Strays count shard event.now (trails_of planned_calls.now) places.old }
{
    let Event::OfCall { call, .. } = *event else {
        return true;
    };
    let number = call.0 % PLAN_CALLS;
    let Some(own) = number.checked_rem(count) else {
        return false;
    };
    let number = number as usize;
    if own as usize != shard || number >= planned_calls.len() {
        return false;
    }
    let Some(next) = place_behind(event, &planned_calls[number], places[number]) else {
        return false;
    };
    places[number] = next;
    true
}

/// Goes along the transcripts by the history of a shard. No, where an event isn't the next one of its call, or isn't of a call of this shard.
fn follow(
    count: u32,
    shard: usize,
    history: &[Event],
    planned_calls: &[PlannedCall<'_>],
    places: &mut [usize],
) -> bool
    requires { length places.old ≡ length planned_calls.now }
    ensures follows { IsTrue result → Follows count shard history.now (trails_of planned_calls.now) places.old places.new }
    ensures strays { result ≡ false → StraysIn count shard history.now (trails_of planned_calls.now) places.old }
{
    for event in history {
        if !follow_event(count, shard, event, planned_calls, places) {
            return false;
        }
    }
    true
}

/// Whether no transcript of a call of a shard goes on where its history ends. No, where there are calls and no shards.
fn are_at_end(count: u32, shard: usize, planned_calls: &[PlannedCall<'_>], places: &[usize]) -> bool
    requires { length places.now ≡ length planned_calls.now }
    ensures yes { IsTrue result → IsAtEnd count shard (trails_of planned_calls.now) places.now }
    ensures no { result ≡ false → (count ≡ 0) ⊎ (IsAtEnd count shard (trails_of planned_calls.now) places.now → ⊥) }
{
    for (number, planned) in planned_calls.iter().enumerate() {
        let Some(own) = number.checked_rem(count as usize) else {
            return false;
        };
        let Some(place) = places.get(number) else {
            return false;
        };
        if own == shard && !ends_at(planned, *place) {
            return false;
        }
    }
    true
}

/// What happened in the shard at a place; nothing, where there is none.
fn history_at<'a>(shards: &'a [Shard<'_>], place: usize) -> &'a [Event]
    ensures { result.now ≡ slice_index_or (map (λ v. v.history) shards.now) place [] }
{
    match shards.get(place) {
        Some(shard) => shard.history(),
        None => &[],
    }
}

/// Whether the history of the shard at a place is what its calls went through. `AllocError` where memory ran out.
fn shard_agrees(
    alloc: Global,
    count: u32,
    place: usize,
    shards: &[Shard<'_>],
    planned_calls: &[PlannedCall<'_>],
) -> Result<bool, AllocError>
    ensures { IfOk result (IsCompared count place (slice_index_or (map (λ v. v.history) shards.now) place []) (trails_of planned_calls.now)) }
{
    let mut places = Vec::from_elem(alloc, 0usize, planned_calls.len())?;
    let history = history_at(shards, place);
    if !follow(count, place, history, planned_calls, places.as_mut_slice()) {
        return Ok(false);
    }
    Ok(are_at_end(count, place, planned_calls, places.as_slice()))
}

/// The answer of each shard, asked by at most as many threads as there are workers, as far as threads can be made. `AllocError` where memory ran out.
fn all_answers<R: Threads + Sync>(
    rt: &R,
    alloc: Global,
    workers: usize,
    count: u32,
    shards: &[Shard<'_>],
    planned_calls: &[PlannedCall<'_>],
) -> Result<Vec<bool>, AllocError>
    ensures { IfOk result (λ answers. AllZip (λ place agrees. IsCompared count place (slice_index_or (map (λ v. v.history) shards.now) place []) (trails_of planned_calls.now) agrees) (range_with_len 0 (length shards.now)) answers.items) }
{
    let all = shards.len();
    // Of parts as large as this the shards have at most as many as there are workers.
    let least = all / workers.saturating_add(1) + 1;
    let answers = (0..all)
        .into_par_iter()
        .with_min_len(least)
        .map(
            |place: usize| -> Result<bool, AllocError>
                ensures { IfOk result (IsCompared count place (slice_index_or (map (λ v. v.history) shards.entry.now) place []) (trails_of planned_calls.entry.now)) }
            { shard_agrees(alloc, count, place, shards, planned_calls) },
        )
        .collect(rt, alloc)?;
    answers
}

/// Whether the histories of all shards, so many, are what the calls went through: asked for each shard by itself, by at most as many threads as there are
/// workers. `AllocError` where memory ran out.
pub(crate) fn agree<R: Threads + Sync>(
    rt: &R,
    alloc: Global,
    workers: usize,
    count: u32,
    shards: &[Shard<'_>],
    planned_calls: &[PlannedCall<'_>],
) -> Result<bool, AllocError>
    requires { length shards.now ≡ count }
    ensures agree { IfOk result (λ yes. IsTrue yes → Agree count (map (λ v. v.history) shards.now) (trails_of planned_calls.now)) }
    ensures differ { IfOk result (λ yes. yes ≡ false → Differ count (map (λ v. v.history) shards.now) (trails_of planned_calls.now)) }
{
    if shards.is_empty() {
        return Ok(false);
    }
    let answers = all_answers(rt, alloc, workers, count, shards, planned_calls)?;
    Ok(!answers.as_slice().contains(&false))
}
