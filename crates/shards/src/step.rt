//! An event of a call, at its record and to the call that is handed in. All that may want memory comes first: whoever comes second can't fail after the first.
ghost use Rattle.std.specs.Prelude.{◌≡◌, OnOk, true};
ghost use Rattle.mg_model.specs.declared.events.Event.TheVariants.{OfCall};
ghost use Rattle.agent.specs.Calls.{is_of_gateway};
ghost use Rattle.shards.specs.Shows.{is_told};
ghost use Rattle.shards.specs.CallTable.{record_in, CountsNotes, IsReady, OthersStay};
ghost use Rattle.shards.specs.Stepping.{AtGateway, IsAtAgent, IsHeld, IsStep, IsUpToDate};

use crate::call_table;
use crate::call_table::CallTable;
use crate::shard::{self, Shard};
use crate::stepped::Stepped;
use agent::{Next, Refusal};
use gateway::Gateway;
use mg_model::events::{CallEvent, Event};
use mg_names::identifiers::CallNo;

/// Whether an agent may hear of it: of no association that the gateway hasn't begun.
pub(crate) fn is_told(gateway: &Gateway, event: &CallEvent) -> bool
    ensures { result ≡ is_told gateway.now.association event.now }
{
    match *event {
        CallEvent::Hear { association } => association.0 <= gateway.association().0,
        _ => true,
    }
}

/// An event of a call at the gateway.
fn at_gateway(
    gateway: &mut Gateway,
    call_table: &mut CallTable,
    call: CallNo,
    event: CallEvent,
) -> Result<(), Refusal>
    requires ready { IsReady (record_in call_table.old.entries call.0) }
    requires notes { CountsNotes gateway.old call.0 (record_in call_table.old.entries call.0) }
    ensures happened { AtGateway gateway.old gateway.new call.0 event (record_in call_table.old.entries call.0) (record_in call_table.new.entries call.0) result }
    ensures others { OthersStay call_table.old.entries call.0 call_table.new.entries }
{
    match event {
        CallEvent::OnLine { line, event } => call_table::happen(
            gateway, call_table, call, line, event,
        ),
        CallEvent::Execute { number, chosen } => {
            call_table::execute(gateway, call_table, call, number, chosen)
        }
        _ => Err(Refusal::NotEnabled),
    }
}

impl<'s> Shard<'s> {
    /// Whether the shard holds the call that is handed in, and counts as many events of it as its transcript has. Only where it counts another number is it
    /// asked whether the event could happen.
    fn holds(&self, next: &Next<'s>, call: CallNo, event: CallEvent) -> Result<(), Refusal>
        ensures { IsHeld self.now next.now (OfCall call event) result }
    {
        let Some(call_record) = call_table::call_record(&self.call_table, next.call()) else {
            return Err(Refusal::NotEnabled);
        };
        let slot_count = call_record.events;
        if next.transcript().len() != slot_count {
            if !self.could_happen(next, call, event) {
                return Err(Refusal::NotEnabled);
            }
            return Err(Refusal::Behind { slot_count });
        }
        Ok(())
    }

    /// An event at the agent of a call.
    fn step_at_agent(
        &mut self,
        next: Next<'s>,
        call: CallNo,
        event: CallEvent,
    ) -> (Next<'s>, Result<Stepped, Refusal>)
        requires { IsAtAgent event }
        ensures { IsStep self.old self.new next.entry result.0 (OfCall call event) result.1 }
    {
        if next.call().0 != call.0 {
            return (next, Err(Refusal::NotEnabled));
        }
        if !is_told(&self.gateway, &event) {
            return (next, Err(Refusal::NotEnabled));
        }
        let Ok(()) = shard::room(&mut self.history) else {
            return (next, Err(Refusal::NoMemory));
        };
        let (next, done) = call_table::step(&mut self.call_table, self.script, next, call, event);
        if let Err(why) = done {
            return (next, Err(why));
        }
        self.history.push_reserved(Event::OfCall { call, event });
        (next, Ok(Stepped::Done))
    }

    /// An event at the gateway, which the call that is handed in only writes down.
    fn step_at_gateway(
        &mut self,
        next: Next<'s>,
        call: CallNo,
        event: CallEvent,
    ) -> (Next<'s>, Result<Stepped, Refusal>)
        requires { is_of_gateway event ≡ true }
        ensures { IsStep self.old self.new next.entry result.0 (OfCall call event) result.1 }
    {
        if next.call().0 != call.0 {
            return (next, Err(Refusal::NotEnabled));
        }
        let Ok(()) = shard::room(&mut self.history) else {
            return (next, Err(Refusal::NoMemory));
        };
        let mut next = next;
        let Ok(()) = next.room() else {
            return (next, Err(Refusal::NoMemory));
        };
        if let Err(why) = at_gateway(&mut self.gateway, &mut self.call_table, call, event) {
            return (next, Err(why));
        }
        let event = Event::OfCall { call, event };
        let next = next.log_event(event);
        self.history.push_reserved(event);
        (next, Ok(Stepped::Done))
    }

    /// An event happens to the shard and to a call that it holds.
    fn happens(
        &mut self,
        next: Next<'s>,
        call: CallNo,
        event: CallEvent,
    ) -> (Next<'s>, Result<Stepped, Refusal>)
        ensures { IsStep self.old self.new next.entry result.0 (OfCall call event) result.1 }
    {
        match event {
            CallEvent::Begin { old } => self.begin(next, call, old),
            CallEvent::OnLine { .. } | CallEvent::Execute { .. } => {
                self.step_at_gateway(next, call, event)
            }
            _ => self.step_at_agent(next, call, event),
        }
    }

    /// The event of a call happens to the shard and to the call that is handed in, which comes back after it; an event that begins a call comes with what is
    /// left of the one on whose lines it begins. `NotEnabled` where the shard doesn't hold the call, or where the event isn't one of that call, or can't happen
    /// to it or in the shard: a message was never sent, a line is held by another call, or the call isn't in the phase for it, among others. `Behind` where the
    /// shard counts another number of events of the call than its transcript has, and the event could happen to both as they are. `NoMemory` where memory ran
    /// out. Then the call comes back as it was, and
    /// nothing changes. It takes as long with many calls, and after a long history, as with few. This profile's own.
    pub fn step(&mut self, next: Next<'s>, event: Event) -> (Next<'s>, Result<Stepped, Refusal>)
        ensures stepped { IsStep self.old self.new next.entry result.0 event result.1 }
        ensures up_to_date { OnOk result.1 (IsUpToDate self.old next.entry) }
    {
        let Event::OfCall { call, event } = event else {
            return (next, Err(Refusal::NotEnabled));
        };
        if let Err(why) = self.holds(&next, call, event) {
            return (next, Err(why));
        }
        self.happens(next, call, event)
    }

    /// The same of a call that is handed in with a transcript of as many events as the shard counts of it, as `meant` tells: the shard isn't asked for that once
    /// more.
    pub fn step_held(
        &mut self,
        next: Next<'s>,
        event: Event,
    ) -> (Next<'s>, Result<Stepped, Refusal>)
        requires { IsUpToDate self.old next }
        ensures { IsStep self.old self.new next.entry result.0 event result.1 }
    {
        match event {
            Event::OfCall { call, event } => self.happens(next, call, event),
            Event::Restart => (next, Err(Refusal::NotEnabled)),
        }
    }
}
