//! Whether the lines of a call of the plan tell where the run leaves it, and those that began within it: compared with what their shard shows, and with their
//! transcripts.
ghost use Rattle.std.specs.Prelude.{◌≡◌, ℕ, ◌+◌, ◌<◌, ◌⊎◌, false, Contains, IfNone, IfSome, IsTrue, Option, Some, length, slice_get, slice_index_or, []};
ghost use Rattle.mg_model.specs.declared.events.Event.TheVariants.{OfCall};
ghost use Rattle.mg_model.specs.World.{begin};
ghost use Rattle.mg_model.specs.declared.events.CallEvent.{CallEvent};
ghost use Rattle.run_shards.specs.Line.{Line};
ghost use Rattle.run_account.specs.Comparing.{last_place, trails_of};
ghost use Rattle.run_shards.specs.Taking.{trail_of};
ghost use Rattle.run_shards.specs.ReportLines.{phase_standing};
ghost use Rattle.run_account.specs.FinalStates.{AreAllOf, IsLineOf, Leaves};
ghost use Rattle.run_account.specs.FinalState.{HaveLines, IsGone, IsLeftAmong, IsLeftBy, call_of};
ghost use Rattle.run_account.specs.OtherLines.{AreLeftOtherwise, AreUnlike, IsInterrupted, IsLeftOtherwise, IsNoBeginningOn, IsNotGone, IsNotOf, IsOfNoCall, IsOtherStanding};

use crate::compare::{ends_at, event_at};
use mg_model::events::{CallEvent, Event};
use mg_names::identifiers::{Assoc, CallNo};
use run_shards::{CallPhase, Line, PLAN_CALLS, PlannedCall, Shard, Standing, phase_of};
use script_table::Script;

/// The number of the call that a line of a call of the plan tells of; nothing where it is of another, or where the numbers end.
fn number_of(call: u32, line: &Line) -> Option<CallNo>
    ensures number { IfSome result (λ number. number.0 ≡ call_of line.now) }
    ensures own { IfSome result (λ number. IsLineOf call line.now) }
    ensures none { IfNone result (IsOfNoCall call line.now) }
{
    let begun = u32::try_from(line.begun).ok()?;
    let before = PLAN_CALLS.checked_mul(begun)?;
    let number = before.checked_add(line.call)?;
    if line.call != call || number % PLAN_CALLS != call {
        return None;
    }
    Some(CallNo(number))
}

/// Whether what happened at a place in the transcripts of a call of the plan happened to this one.
fn happened_to(planned: &PlannedCall<'_>, place: usize, number: CallNo) -> bool
    ensures yes { IsTrue result → (happens : CallEvent) × (slice_get (trail_of planned.now) place ≡ Some (OfCall number happens)) }
    ensures no { result ≡ false → IsNotOf number.0 (trail_of planned.now) place }
{
    match event_at(planned, place) {
        Some(Event::OfCall { call, .. }) => call == number,
        _ => false,
    }
}

/// The place behind so many events in the transcripts of a call of the plan; nothing where one of them didn't happen to this one.
fn place_behind(
    planned: &PlannedCall<'_>,
    from: usize,
    count: usize,
    number: CallNo,
) -> Option<usize>
    ensures all { IfSome result (λ next. AreAllOf (trail_of planned.now) number.0 from count next) }
    ensures next { IfSome result (λ next. next ≡ from + count) }
    ensures none { IfNone result (IsInterrupted (trail_of planned.now) number.0 from count ⊎ (last_place < length (trail_of planned.now))) }
{
    let mut place = from;
    for _ in 0..count {
        if !happened_to(planned, place, number) {
            return None;
        }
        place = place.checked_add(1)?;
    }
    Some(place)
}

/// Whether what happened at a place in the transcripts of a call of the plan is that another call began on this one.
fn is_begun_on(planned: &PlannedCall<'_>, place: usize, number: CallNo) -> bool
    ensures yes { IsTrue result → (next : ℕ) × Contains (trail_of planned.now) (begin next number.0) }
    ensures no { result ≡ false → IsNoBeginningOn number.0 (trail_of planned.now) place }
{
    match event_at(planned, place) {
        Some(
            Event::OfCall {
                event: CallEvent::Begin { old },
                ..
            },
        ) => old == number,
        _ => false,
    }
}

/// Whether a line tells a call that stands so.
fn is_open_as(script: &Script, standing: Standing, association: Assoc, line: &Line) -> bool
    ensures state { IsTrue result → line.now.state ≡ standing.state }
    ensures phase { IsTrue result → line.now.phase ≡ phase_standing script.now standing association.0 }
    ensures no { result ≡ false → IsOtherStanding script.now standing association.0 line.now }
{
    line.state == standing.state && line.phase == phase_of(script, standing, association)
}

/// Whether a line tells a call as retired on which another began, at this place in the transcripts.
fn is_gone(
    script: &Script,
    planned: &PlannedCall<'_>,
    place: usize,
    number: CallNo,
    line: &Line,
) -> bool
    requires { number.0 ≡ call_of line.now }
    ensures yes { IsTrue result → IsGone script.now (trail_of planned.now) line.now }
    ensures no { result ≡ false → IsNotGone script.now (trail_of planned.now) place line.now }
{
    if line.phase != CallPhase::Retired || !script.ends_in(line.state) {
        return false;
    }
    is_begun_on(planned, place, number)
}

/// Whether a line tells where its call is, behind whose events this place is in the transcripts.
fn is_left(
    script: &Script,
    shard: &Shard<'_>,
    planned: &PlannedCall<'_>,
    place: usize,
    number: CallNo,
    line: &Line,
) -> bool
    requires { number.0 ≡ call_of line.now }
    ensures yes { IsTrue result → Leaves script.now shard.now (trail_of planned.now) line.now }
    ensures no { result ≡ false → IsLeftOtherwise script.now shard.now (trail_of planned.now) place line.now }
{
    match shard.standing(number) {
        Some(standing) => is_open_as(script, standing, shard.association(), line),
        None => is_gone(script, planned, place, number, line),
    }
}

/// Whether the lines of a call of the plan tell where its shard and its transcripts leave it, and those that began within it.
fn are_left_by(
    script: &Script,
    shard: &Shard<'_>,
    planned: &PlannedCall<'_>,
    call: u32,
    lines: &[Line],
) -> bool
    ensures left { IsTrue result → (l : Line) → Contains lines.now l → (l.call ≡ call) × IsLeftBy script.now shard.now (trail_of planned.now) l }
    ensures all { IsTrue result → HaveLines (trail_of planned.now) lines.now }
    ensures no { result ≡ false → AreUnlike script.now shard.now (trail_of planned.now) call lines.now }
{
    let mut place = 0;
    let mut least = 0;
    for line in lines {
        let Some(number) = number_of(call, line) else {
            return false;
        };
        let Some(next) = place_behind(planned, place, line.events, number) else {
            return false;
        };
        let Some(above) = number.0.checked_add(1) else {
            return false;
        };
        if number.0 < least || !is_left(script, shard, planned, next, number, line) {
            return false;
        }
        place = next;
        least = above;
    }
    ends_at(planned, place)
}

/// Whether the lines of a call of the plan tell where the run leaves it, and those that began within it, in so many shards.
pub(crate) fn are_left(
    script: &Script,
    count: u32,
    shards: &[Shard<'_>],
    planned_calls: &[PlannedCall<'_>],
    call: u32,
    lines: &[Line],
) -> bool
    ensures left { IsTrue result → (l : Line) → Contains lines.now l → IsLeftAmong script.now count shards.now (trails_of planned_calls.now) l }
    ensures all { IsTrue result → HaveLines (slice_index_or (trails_of planned_calls.now) call []) lines.now }
    ensures no { result ≡ false → AreLeftOtherwise script.now count shards.now (trails_of planned_calls.now) call lines.now }
{
    let Some(planned) = planned_calls.get(call as usize) else {
        return false;
    };
    let Some(place) = call.checked_rem(count) else {
        return false;
    };
    let Some(shard) = shards.get(place as usize) else {
        return false;
    };
    are_left_by(script, shard, planned, call, lines)
}
