//! How where a call stands and what happened to it are written: events by the words of a plan, with the numbers that they have.
use crate::pages::{Answer, Page};
use mg_model::events::{CallEvent, Event};
use mg_model::failures::{ChosenRefusal, Refusal};
use mg_model::line_events::{Hook, LineEvent};
use mg_names::identifiers::{Assoc, LineNo};
use requests::Request;
use script_table::Script;

/// What a call does in its state.
#[derive(Clone, Copy)]
pub enum Phase {
    /// It rests.
    Resting,
    /// It waits for the reply to this request, which has so many commands.
    Asking(u32, usize),
    /// It waits for its pass.
    Passing,
    /// It has ended.
    Ended,
}

/// The phase of a call that waits.
pub fn waiting(request: Option<&Request>) -> Phase {
    match request {
        Some(request) => Phase::Asking(request.number(), request.commands().len()),
        None => Phase::Passing,
    }
}

/// Writes the name of a state.
pub fn write_state(page: &mut Page, script: &Script, state: u8) {
    if let Some(state) = script.state(state) {
        page.say(state.name());
    }
}

/// Writes a phase.
fn write_phase(page: &mut Page, phase: Phase) {
    match phase {
        Phase::Resting => page.say(" resting"),
        Phase::Asking(number, count) => {
            page.numbered(" waiting, request ", u64::from(number));
            page.numbered(" of ", count as u64);
            page.say(" commands");
        }
        Phase::Passing => page.say(" waiting, no request"),
        Phase::Ended => page.say(" ended"),
    }
}

/// Writes where a call stands: its state, what it does in it, and in which association.
pub fn write_standing(
    page: &mut Page,
    script: &Script,
    state: u8,
    phase: Phase,
    of: Assoc,
) -> Answer {
    write_state(page, script, state);
    write_phase(page, phase);
    page.numbered(", association ", of.0);
    Answer::Told
}

/// Writes what happened on a line of the gateway.
fn write_on_line(page: &mut Page, line: LineNo, event: LineEvent) {
    let (word, behind) = match event {
        LineEvent::Hook(Hook::Off) => ("off ", ""),
        LineEvent::Hook(Hook::On) => ("on ", ""),
        LineEvent::Flash => ("flash ", ""),
        LineEvent::Digit(symbol) => ("digit ", symbol.text()),
        LineEvent::Pause => ("pause ", ""),
        LineEvent::SignalEnd(signal) => ("end ", signal.text()),
    };
    page.numbered(word, u64::from(line.0));
    if !behind.is_empty() {
        page.say(" ");
        page.say(behind);
    }
}

/// Writes the execution of a request, with the refusal that is chosen.
fn write_executed(page: &mut Page, number: u32, chosen: Option<ChosenRefusal>) {
    page.numbered("execute ", u64::from(number));
    if let Some(chosen) = chosen {
        page.numbered(" refuse ", u64::from(chosen.place));
        if chosen.refusal != Refusal::InternalFailure {
            page.say(" by 510");
        }
    }
}

/// Writes an event of a call.
fn write_of_call(page: &mut Page, event: CallEvent) {
    match event {
        CallEvent::OnLine { line, event } => write_on_line(page, line, event),
        CallEvent::Execute { number, chosen } => write_executed(page, number, chosen),
        CallEvent::Reply { number } => page.numbered("reply ", u64::from(number)),
        CallEvent::Pass => page.say("pass"),
        CallEvent::Note { number } => page.numbered("note ", u64::from(number)),
        CallEvent::Timer => page.say("timer"),
        CallEvent::Begin { old } => page.numbered("begin after ", u64::from(old.0)),
        CallEvent::Hear { association } => page.numbered("hear ", association.0),
    }
}

/// Writes an event.
pub fn write_event(page: &mut Page, event: &Event) {
    match event {
        Event::OfCall { event, .. } => write_of_call(page, *event),
        Event::Restart => page.say("restart"),
    }
}

/// Writes events, the latest last.
pub fn write_events(page: &mut Page, events: &[Event]) -> Answer {
    page.number(events.len() as u64);
    page.say(" events");
    for (place, event) in events.iter().enumerate() {
        page.say(if place == 0 { ": " } else { ", " });
        write_event(page, event);
    }
    Answer::Told
}
