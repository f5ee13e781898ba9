//! What an event can't happen for, of which a call of its kind has steps: what is found out about it by asking the shard and the call.
ghost use Rattle.std.specs.Prelude.{◌≡◌, ◌<◌, ◌≤◌, IfSome, length, option_map, true, false};
ghost use Rattle.agent.specs.AgentValue.{agent_of};
ghost use Rattle.agent.specs.Steps.{outstanding};
ghost use Rattle.mg_model.specs.declared.events.CallEvent.TheVariants.{OnLine};
ghost use Rattle.mg_model.specs.declared.line_events.LineEvent.TheVariants as events;
ghost use Rattle.taken_steps.specs.Findings.{IsFoundAtAnswer, IsFoundAtBeginning, IsFoundAtHearing, IsFoundAtNote, IsFoundAtTimer, IsFoundOnLine, LeadsSomewhere, TellsHolder};
ghost use Rattle.taken_steps.specs.Reasons.{few_events, has_reached, is_note_of};
ghost use Rattle.taken_steps.specs.declared.idle.Idle.TheVariants.{NumbersEnd};
ghost use Rattle.taken_steps.specs.declared.idle.Numbers.TheVariants.{Requests};

use crate::idle::{Idle, Numbers};
use agent::{Call, Next, Waiting};
use mg_model::events::{CallEvent, Event};
use mg_model::line_events::{Hook, LineEvent};
use mg_names::identifiers::{Assoc, CallNo, LineNo};
use planned_calls::Shard;
use script_table::Script;

/// After fewer events than this a number is left for each message: each sends at most sixteen notes, or one request. This profile's own.
const FEW_EVENTS: usize = 268_435_455;

/// Whether so few events happened that a number is left for each message.
fn is_short(history: &[Event]) -> bool
    ensures short { result ≡ true → length history.now < few_events }
    ensures long { result ≡ false → few_events ≤ length history.now }
{
    history.len() < FEW_EVENTS
}

/// The hook of a line goes to a state.
fn hook_goes(line: LineNo, hook: Hook) -> CallEvent
    ensures { result ≡ OnLine line (events.Hook hook) }
{
    CallEvent::OnLine {
        line,
        event: LineEvent::Hook(hook),
    }
}

/// Whether a call holds a line: one of the two hook events can happen there then, while a number is left for its note. Nothing where the call isn't open.
fn is_holder(shard: &Shard<'_>, call: CallNo, line: LineNo) -> Option<bool>
    ensures { IfSome result (λ holds. TellsHolder shard.now call.0 line.0 holds) }
{
    if shard.can_occur(call, hook_goes(line, Hook::Off))? {
        return Some(true);
    }
    shard.can_occur(call, hook_goes(line, Hook::On))
}

/// Why an event of a line is refused.
pub(crate) fn on_line(shard: &Shard<'_>, call: CallNo, line: LineNo) -> Option<Idle>
    ensures { IfSome result (λ why. IsFoundOnLine shard.now call.0 line why) }
{
    if !is_short(shard.history()) {
        return Some(Idle::NumbersEnd {
            which: Numbers::Notes,
        });
    }
    if is_holder(shard, call, line)? {
        return Some(Idle::NotOnLine { line });
    }
    Some(Idle::NotOfCall { line })
}

/// The number of the request whose reply a call awaits; none where it awaits its pass.
fn awaited(call: &Call<'_, Waiting>) -> Option<u32>
    ensures { result ≡ option_map (λ r. r.number) (outstanding (agent_of call.now.agent).phase) }
{
    match call.request() {
        Some(request) => Some(request.number()),
        None => None,
    }
}

/// Whether what came is something else than what is expected.
fn is_other(expected: Option<u32>, came: Option<u32>) -> bool
    ensures other { result ≡ true → expected ≡ came → ⊥ }
    ensures same { result ≡ false → expected ≡ came }
{
    match (expected, came) {
        (Some(expected), Some(came)) => expected != came,
        (None, None) => false,
        _ => true,
    }
}

/// No number is left for the next request, where a state leads on from what came.
fn no_request_left(script: &Script, state: u8, came: Option<u32>) -> Option<Idle>
    ensures { IfSome result (λ why. (why ≡ NumbersEnd Requests) × LeadsSomewhere script.now state came) }
{
    if came.is_some() {
        script.fault_of(state)?;
    }
    Some(Idle::NumbersEnd {
        which: Numbers::Requests,
    })
}

/// Why a reply to a request with this number is refused, or a pass, by a call that waits in a state.
pub(crate) fn at_answer(
    script: &Script,
    next: &Next<'_>,
    state: u8,
    came: Option<u32>,
) -> Option<Idle>
    ensures { IfSome result (λ why. IsFoundAtAnswer script.now next.now state came why) }
{
    let Next::Waiting(call) = next else {
        return None;
    };
    let expected = awaited(call);
    if is_other(expected, came) {
        return Some(Idle::NotAwaited { expected, came });
    }
    no_request_left(script, state, came)
}

/// Whether an event is that a note of a call with this number reaches it.
fn is_note_of(event: &Event, call: CallNo, number: u32) -> bool
    ensures { result ≡ is_note_of call.0 number event.now }
{
    match *event {
        Event::OfCall {
            call: of,
            event: CallEvent::Note { number: told },
        } => of == call && told == number,
        _ => false,
    }
}

/// Whether the note of a call with this number reached it.
fn has_reached(history: &[Event], call: CallNo, number: u32) -> bool
    ensures { result ≡ has_reached call.0 number history.now }
{
    history.iter().any(|event| is_note_of(event, call, number))
}

/// Why a note is refused by a call that rests.
pub(crate) fn at_note(shard: &Shard<'_>, call: CallNo, number: u32) -> Idle
    ensures { IsFoundAtNote shard.now call.0 number result }
{
    let history = shard.history();
    if has_reached(history, call, number) {
        return Idle::NotNew { number };
    }
    if is_short(history) {
        return Idle::OtherAssociation { number };
    }
    Idle::NumbersEnd {
        which: Numbers::Requests,
    }
}

/// Why no timer ends in a state.
pub(crate) fn at_timer(script: &Script, state: u8) -> Idle
    ensures { IsFoundAtTimer script.now state result }
{
    if script.timer_of(state).is_none() {
        return Idle::NoTimer;
    }
    Idle::NumbersEnd {
        which: Numbers::Requests,
    }
}

/// Why a call of one association doesn't hear of another, where its gateway is in the current one.
pub(crate) fn at_hearing(own: Assoc, current: Assoc, association: Assoc) -> Idle
    ensures { IsFoundAtHearing own.0 current.0 association result }
{
    if association.0 <= own.0 {
        return Idle::NothingToHear;
    }
    if association.0 > current.0 {
        return Idle::NotBegun { association };
    }
    Idle::NumbersEnd {
        which: Numbers::Requests,
    }
}

/// Why no call begins on the lines of one of this association, which has ended, where its gateway is in the current one.
pub(crate) fn at_beginning(own: Assoc, current: Assoc) -> Idle
    ensures { IsFoundAtBeginning own.0 current.0 result }
{
    if own != current {
        return Idle::Lost { own, current };
    }
    Idle::NotReleased
}
