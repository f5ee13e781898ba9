//! Which event a step of a plan means for a call of a shard.
ghost use Rattle.std.specs.Prelude.{◌≡◌, Some, None, option_map};
ghost use Rattle.std.specs.List.{find};
ghost use Rattle.mg_model.specs.declared.events.Event.TheVariants as events;
ghost use Rattle.mg_model.specs.declared.plans.PlanStep.TheVariants as steps;
ghost use Rattle.mg_model.specs.Reports as reports;
ghost use Rattle.mg_model.specs.World as world;
ghost use Rattle.agent.specs.AgentValue.{agent_of};
ghost use Rattle.shards.specs.Messages.{AreNumberedFrom, note_numbers};
ghost use Rattle.shards.specs.Meaning.{HasNumberedNotes, IsMeant, IsSameEntry, IsTiedEntry, event_in, event_of_entry, note_in, on_record};
ghost use Rattle.shards.specs.Shards.{IsUnchanged};
ghost use Rattle.shards.specs.CallRecords.{AreSettled, IsSameRecord, IsTied, is_settled, request_in};
ghost use Rattle.shards.specs.CallTable.{OthersStay, record_in};

use crate::at_gateway;
use crate::call_record::CallRecord;
use crate::call_table::CallTable;
use crate::shard::Shard;
use agent::Plain;
use mg_model::events::{CallEvent, Event};
use mg_model::failures::{ChosenRefusal, Refusal};
use mg_model::line_events::{Hook, LineEvent};
use mg_model::plans::PlanStep;
use mg_names::identifiers::{Assoc, CallNo};
use mg_names::slots::Slot as Place;
use requests::{Request, SentNote};

/// An event of the call of a record.
fn of_call(call_record: &CallRecord, event: CallEvent) -> Event
    ensures { result ≡ events.OfCall (record { 0 = (agent_of call_record.now.agent).call }) event }
{
    Event::OfCall {
        call: call_record.agent.call(),
        event,
    }
}

/// An event of the gateway's line for a line of the script.
fn on_line(call_record: &CallRecord, line: Place, event: LineEvent) -> Option<Event>
    ensures { result ≡ Some (on_record call_record.now line event) }
{
    let line = call_record.agent.line(line);
    Some(of_call(call_record, CallEvent::OnLine { line, event }))
}

/// The refusal at a place, if there is one.
fn refusal(place: Option<u8>) -> Option<ChosenRefusal>
    ensures { result ≡ reports.refusal_at place }
{
    match place {
        Some(place) => Some(ChosenRefusal {
            place: u32::from(place),
            refusal: Refusal::InternalFailure,
        }),
        None => None,
    }
}

/// The request of this number, or the latest.
fn request(call_record: &CallRecord, which: Option<u32>) -> Option<&Request>
    ensures { option_map (λ r. r.now) result ≡ request_in call_record.now which }
{
    match which {
        Some(number) => at_gateway::request(call_record, number),
        None => match call_record.agent.request() {
            Some(request) => Some(request),
            None => call_record.messages.request(None),
        },
    }
}

/// A request reaches the gateway: the one of this number, or the latest.
fn executes(call_record: &CallRecord, which: Option<u32>, place: Option<u8>) -> Option<Event>
    ensures { result ≡ event_in call_record.now 0 0 (steps.Executes which place) }
{
    let number = request(call_record, which)?.number();
    let chosen = refusal(place);
    Some(of_call(call_record, CallEvent::Execute { number, chosen }))
}

/// A reply reaches the call: the latest to the request of this number, or the latest of all.
fn takes_reply(call_record: &CallRecord, which: Option<u32>) -> Option<Event>
    ensures { result ≡ event_in call_record.now 0 0 (steps.TakesReply which) }
{
    let number = call_record.messages.reply(which)?.number();
    Some(of_call(call_record, CallEvent::Reply { number }))
}

/// Whether a note is one to the agent that is new to it.
fn waits(agent: &Plain, note: &SentNote) -> bool
    ensures { result ≡ reports.is_waiting (agent_of agent.now) note.now }
{
    note.call() == agent.call() && agent.is_new(note.association(), note.number())
}

/// The first of the notes that waits for the agent.
fn first_waiting<'a>(agent: &Plain, notes: &'a [SentNote]) -> Option<&'a SentNote>
    ensures { option_map (λ n. n.now) result ≡ find (reports.is_waiting (agent_of agent.now)) notes.now }
{
    for note in notes {
        if waits(agent, note) {
            return Some(note);
        }
    }
    None
}

/// Whether a note is settled: it is of no newer association than the agent's, and isn't new to it.
fn is_settled(agent: &Plain, note: &SentNote) -> bool
    ensures { result ≡ is_settled (agent_of agent.now) note.now }
{
    if note.association().0 > agent.association().0 {
        return false;
    }
    !agent.is_new(note.association(), note.number())
}

/// How many of the notes are settled, from the first on, where so many are.
fn settled_from(agent: &Plain, notes: &[SentNote], settled: usize) -> usize
    requires { AreSettled (agent_of agent.now) notes.now settled }
    ensures { AreSettled (agent_of agent.now) notes.now result }
{
    for place in settled..notes.len() {
        if !is_settled(agent, &notes[place]) {
            return place;
        }
    }
    notes.len()
}

/// Counts on over the notes that are settled, so that none is looked at once more.
pub(crate) fn settle(call_record: &mut CallRecord)
    requires { IsTied call_record.old }
    ensures same { IsSameRecord call_record.old call_record.new }
    ensures tied { IsTied call_record.new }
    ensures numbered { AreNumberedFrom 1 (note_numbers call_record.old.messages.sent.notes) }
{
    call_record.settled = settled_from(
        &call_record.agent,
        call_record.messages.notes(),
        call_record.settled,
    );
}

/// The oldest note that waits for the agent, looked for past those that are settled.
fn oldest(call_record: &CallRecord) -> Option<&SentNote>
    requires { IsTied call_record.now }
    ensures { option_map (λ n. n.now) result ≡ note_in call_record.now None }
{
    let notes = call_record.messages.notes();
    first_waiting(&call_record.agent, &notes[call_record.settled..])
}

/// A note reaches the call: the one of this number, or the oldest that waits for the agent.
fn takes_note(call_record: &CallRecord, which: Option<u32>) -> Option<Event>
    requires { IsTied call_record.now }
    ensures { result ≡ event_in call_record.now 0 0 (steps.TakesNote which) }
{
    let number = match which {
        Some(number) => call_record.messages.note(number)?.number(),
        None => oldest(call_record)?.number(),
    };
    Some(of_call(call_record, CallEvent::Note { number }))
}

/// A call of this number begins on the lines of the record's.
fn begins(call_record: &CallRecord, next: CallNo) -> Event
    ensures { result ≡ world.begin next.0 (agent_of call_record.now.agent).call }
{
    let old = call_record.agent.call();
    Event::OfCall {
        call: next,
        event: CallEvent::Begin { old },
    }
}

/// The event that a step means for the call of a record, where the gateway is in this association and the next call to begin has this number.
pub(crate) fn event(
    call_record: &CallRecord,
    association: Assoc,
    next: CallNo,
    step: &PlanStep,
) -> Option<Event>
    requires { IsTied call_record.now }
    ensures { result ≡ event_in call_record.now association.0 next.0 step.now }
{
    match *step {
        PlanStep::GoesOff(line) => on_line(call_record, line, LineEvent::Hook(Hook::Off)),
        PlanStep::GoesOn(line) => on_line(call_record, line, LineEvent::Hook(Hook::On)),
        PlanStep::Flashes(line) => on_line(call_record, line, LineEvent::Flash),
        PlanStep::Dials(line, symbol) => on_line(call_record, line, LineEvent::Digit(symbol)),
        PlanStep::Pauses(line) => on_line(call_record, line, LineEvent::Pause),
        PlanStep::Ends(line, signal) => on_line(call_record, line, LineEvent::SignalEnd(signal)),
        PlanStep::Executes(which, place) => executes(call_record, which, place),
        PlanStep::TakesReply(which) => takes_reply(call_record, which),
        PlanStep::Passes => Some(of_call(call_record, CallEvent::Pass)),
        PlanStep::TakesNote(which) => takes_note(call_record, which),
        PlanStep::TimesOut => Some(of_call(call_record, CallEvent::Timer)),
        PlanStep::Hears => Some(of_call(call_record, CallEvent::Hear { association })),
        PlanStep::Begins => Some(begins(call_record, next)),
        PlanStep::Restarts => Some(Event::Restart),
    }
}

/// The event that a step means for a call.
#[tactic(auto, unfolding(crate::specs::CallTable::record_in))]
fn event_of(
    call_table: &mut CallTable,
    call: CallNo,
    association: Assoc,
    next: CallNo,
    step: &PlanStep,
) -> Option<Event>
    requires { IsTiedEntry (record_in call_table.old.entries call.0) }
    ensures means { result ≡ event_of_entry (record_in call_table.old.entries call.0) association.0 next.0 step.now }
    ensures numbered { HasNumberedNotes (record_in call_table.old.entries call.0) }
    ensures same { IsSameEntry (record_in call_table.old.entries call.0) (record_in call_table.new.entries call.0) }
    ensures others { OthersStay call_table.old.entries call.0 call_table.new.entries }
{
    match call_table.get_mut(&call.0) {
        Some(call_record) => {
            settle(call_record);
            event(call_record, association, next, step)
        }
        None => None,
    }
}

impl<'s> Shard<'s> {
    /// The event that a step of a plan means for a call, where the next call to begin on its lines is to have this number. `None` where the
    /// step means nothing: where no such message was sent, where no note waits for the call, or where it isn't open. Nothing changes but that
    /// notes that the call never waits for again are passed over from then on: it takes as long after a long history as after a short one, but
    /// for notes of associations that the call hasn't heard of. This profile's own.
    pub fn meaning(&mut self, call: CallNo, next: CallNo, step: &PlanStep) -> Option<Event>
        ensures meant { IsMeant self.old call.0 next.0 step.now result }
        ensures unchanged { IsUnchanged self.old self.new }
    {
        let association = self.gateway.association();
        event_of(&mut self.call_table, call, association, next, step)
    }
}
