//! Why a step of a plan is idle: by what it asks for, and by what is found out about the event that it means where that can't happen.
ghost use Rattle.std.specs.Prelude.{◌≡◌, IfSome, true};
ghost use Rattle.agent.specs.Calls.{variant_of};
ghost use Rattle.shards.specs.CanOccur.{record_call};
ghost use Rattle.shards.specs.Stepping.{has_step};
ghost use Rattle.taken_steps.specs.Findings.{IsFound, IsStandingAlike, kind_at};
ghost use Rattle.taken_steps.specs.Reasons.{IsKind, IsRefusedFor, IsUnmeant};

use crate::causes;
use crate::idle::{Idle, Numbers};
use agent::Next;
use mg_model::events::CallEvent;
use mg_model::plans::PlanStep;
use mg_names::identifiers::CallNo;
use planned_calls::{Shard, Standing};
use script_table::Script;

/// Why a step is idle that means no event; nothing, where it asks for no message.
pub(crate) fn unmeant(step: &PlanStep) -> Option<Idle>
    ensures { IfSome result (λ why. IsUnmeant step.now why) }
{
    match *step {
        PlanStep::TakesNote(None) => Some(Idle::NoNoteWaits),
        PlanStep::TakesNote(Some(_)) | PlanStep::TakesReply(_) | PlanStep::Executes(_, _) => Some(
            Idle::NothingSent,
        ),
        _ => None,
    }
}

/// Whether a call of this kind has a step for an event.
fn has_step(next: &Next<'_>, event: &CallEvent) -> bool
    ensures { result ≡ has_step event.now (variant_of next.now) }
{
    match *event {
        CallEvent::OnLine { .. } | CallEvent::Execute { .. } | CallEvent::Hear { .. } => true,
        CallEvent::Reply { .. } | CallEvent::Pass => matches!(next, Next::Waiting(_)),
        CallEvent::Note { .. } | CallEvent::Timer => matches!(next, Next::Resting(_)),
        CallEvent::Begin { .. } => matches!(next, Next::Ended(_)),
    }
}

/// Which kind of call it is, for which there is no such step.
fn kind(next: &Next<'_>) -> Idle
    ensures { IsKind (variant_of next.now) result }
{
    match next {
        Next::Waiting(_) => Idle::Waits,
        Next::Resting(_) => Idle::Rests,
        Next::Ended(_) => Idle::HasEnded,
    }
}

/// Whether a call that stands so is of the kind of the one that is handed in.
fn is_alike(script: &Script, stands: Standing, next: &Next<'_>) -> bool
    ensures { result ≡ true → kind_at script.now stands.state stands.is_resting ≡ variant_of next.now }
{
    match next {
        Next::Waiting(_) => !stands.is_resting,
        Next::Resting(_) => stands.is_resting && !script.ends_in(stands.state),
        Next::Ended(_) => stands.is_resting && script.ends_in(stands.state),
    }
}

/// Where the shard has a call; nothing where it isn't open, or where the one that is handed in isn't there.
fn standing(shard: &Shard<'_>, next: &Next<'_>, call: CallNo) -> Option<Standing>
    ensures { IfSome result (λ stands. IsStandingAlike shard.now call.0 next.now stands) }
{
    let stands = shard.standing(call)?;
    if stands.state != next.state() {
        return None;
    }
    if stands.association != next.association() {
        return None;
    }
    if !is_alike(shard.script(), stands, next) {
        return None;
    }
    Some(stands)
}

/// The call of an event: of a beginning that on whose lines it is.
fn own_call(call: CallNo, event: &CallEvent) -> CallNo
    ensures { result.0 ≡ record_call call.0 event.now }
{
    match *event {
        CallEvent::Begin { old } => old,
        _ => call,
    }
}

/// What an event is refused for of which a call of its kind has steps, where the shard has the call so; nothing, where its state has no target for a reply that
/// tells a failure.
fn cause(
    shard: &Shard<'_>,
    next: &Next<'_>,
    stands: Standing,
    call: CallNo,
    event: CallEvent,
) -> Option<Idle>
    ensures { IfSome result (λ why. IsFound shard.now next.now stands call.0 event why) }
{
    let script = shard.script();
    match event {
        CallEvent::OnLine { line, .. } => causes::on_line(shard, call, line),
        CallEvent::Execute { .. } => Some(Idle::NumbersEnd {
            which: Numbers::Notes,
        }),
        CallEvent::Reply { number } => causes::at_answer(script, next, stands.state, Some(number)),
        CallEvent::Pass => causes::at_answer(script, next, stands.state, None),
        CallEvent::Note { number } => Some(causes::at_note(shard, call, number)),
        CallEvent::Timer => Some(causes::at_timer(script, stands.state)),
        CallEvent::Hear { association } => Some(causes::at_hearing(
            stands.association,
            shard.association(),
            association,
        )),
        CallEvent::Begin { .. } => Some(causes::at_beginning(
            stands.association,
            shard.association(),
        )),
    }
}

/// Why an event of a call can't happen in a shard; nothing, where it can, or where the call that is handed in isn't where the shard has it.
pub(crate) fn refused(
    shard: &Shard<'_>,
    next: &Next<'_>,
    call: CallNo,
    event: CallEvent,
) -> Option<Idle>
    ensures { IfSome result (λ why. IsRefusedFor shard.now next.now call.0 event why) }
{
    if shard.can_occur(call, event)? {
        return None;
    }
    let stands = standing(shard, next, own_call(call, &event))?;
    shard.keeps_its_run();
    if !has_step(next, &event) {
        return Some(kind(next));
    }
    cause(shard, next, stands, call, event)
}
