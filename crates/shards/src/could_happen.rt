//! Whether an event of a call could happen to a shard and to the call that is handed in, without the event. It takes no memory.
ghost use Rattle.std.specs.Prelude.{◌≡◌, true, option_map};
ghost use Rattle.mg_model.specs.declared.events.CallEvent.TheVariants.{Begin};
ghost use Rattle.mg_model.specs.declared.events.Event.TheVariants.{OfCall};
ghost use Rattle.agent.specs.Calls.{is_of_gateway};
ghost use Rattle.agent.specs.declared.call.Next.TheVariants as next;
ghost use Rattle.shards.specs.CouldHappen.{HasOwnRecord, IsPossibleOn, IsPossibleRequest, IsPossibleStep};
ghost use Rattle.shards.specs.Stepping.{IsAtAgent, IsPossible};

use crate::call_record::CallRecord;
use crate::shard::Shard;
use crate::step::is_told;
use crate::{at_agent, at_gateway, begin, call_table};
use agent::{Call, Ended, Next};
use gateway::Gateway;
use mg_model::events::CallEvent;
use mg_model::line_events::LineEvent;
use mg_names::identifiers::{CallNo, LineNo};
use script_table::Script;

/// Whether a call holds a line, and the event can happen there.
pub(crate) fn could_happen_on(
    gateway: &Gateway,
    call: CallNo,
    line: LineNo,
    event: LineEvent,
) -> bool
    ensures { IsPossibleOn gateway.now call.0 line.0 event result }
{
    if gateway.holder(line) != Some(call) {
        return false;
    }
    gateway.can_happen(line, event)
}

/// Whether a call sent a request with this number, and the gateway would take it.
pub(crate) fn could_execute(
    gateway: &Gateway,
    call_record: &CallRecord,
    call: CallNo,
    number: u32,
) -> bool
    ensures { IsPossibleRequest gateway.now call.0 number call_record.now result }
{
    let Some(request) = at_gateway::request(call_record, number) else {
        return false;
    };
    gateway.can_execute(call, request)
}

/// Whether what an event brings was sent, and the record's agent and the call that is handed in can both take it.
fn could_step(call_record: &CallRecord, script: &Script, next: &Next<'_>, event: &CallEvent) -> bool
    ensures { IsPossibleStep script.now next.now event.now call_record.now result }
{
    let Some(delivery) = at_agent::brought(&call_record.messages, event) else {
        return false;
    };
    if !call_record.agent.can_take(script, &delivery) {
        return false;
    }
    next.can_take(&delivery)
}

impl<'s> Shard<'s> {
    /// The record of the call that is handed in, where it is the call of the event.
    fn own_record(&self, next: &Next<'s>, call: CallNo) -> Option<&CallRecord>
        ensures { HasOwnRecord self.now next.now call.0 (option_map (λ s. s.now) result) }
    {
        if next.call().0 != call.0 {
            return None;
        }
        call_table::call_record(&self.call_table, call)
    }

    /// Whether an event could reach the agent.
    fn could_reach_agent(&self, next: &Next<'s>, call: CallNo, event: CallEvent) -> bool
        requires { IsAtAgent event }
        ensures { IsPossible self.now next.now (OfCall call event) result }
    {
        let Some(call_record) = self.own_record(next, call) else {
            return false;
        };
        if !is_told(&self.gateway, &event) {
            return false;
        }
        could_step(call_record, self.script, next, &event)
    }

    /// Whether an event could happen at the gateway.
    fn could_reach_gateway(&self, next: &Next<'s>, call: CallNo, event: CallEvent) -> bool
        requires { is_of_gateway event ≡ true }
        ensures { IsPossible self.now next.now (OfCall call event) result }
    {
        let Some(call_record) = self.own_record(next, call) else {
            return false;
        };
        match event {
            CallEvent::OnLine { line, event } => could_happen_on(&self.gateway, call, line, event),
            CallEvent::Execute { number, .. } => could_execute(
                &self.gateway,
                call_record,
                call,
                number,
            ),
            _ => false,
        }
    }

    /// Whether a call could begin on the lines of a call that has ended.
    fn could_begin_on(&self, ended: &Call<'s, Ended>, call: CallNo, old: CallNo) -> bool
        ensures { IsPossible self.now (next.Ended ended.now) (OfCall call (Begin old)) result }
    {
        if ended.call().0 != old.0 {
            return false;
        }
        let Some(call_record) = call_table::call_record(&self.call_table, old) else {
            return false;
        };
        if !begin::has_ended(call_record, self.script, self.gateway.association()) {
            return false;
        }
        let Ok(()) = self.gateway.can_begin(old, call) else {
            return false;
        };
        true
    }

    /// Whether a call could begin on the lines of the one that is handed in.
    fn could_begin(&self, next: &Next<'s>, call: CallNo, old: CallNo) -> bool
        ensures { IsPossible self.now next.now (OfCall call (Begin old)) result }
    {
        match next {
            Next::Ended(ended) => self.could_begin_on(ended, call, old),
            Next::Resting(_) => false,
            Next::Waiting(_) => false,
        }
    }

    /// Whether an event of a call could happen to the shard and to the call that is handed in. What it asks is what a step asks: who is behind may be told so
    /// only where the step could be taken otherwise.
    pub(crate) fn could_happen(&self, next: &Next<'s>, call: CallNo, event: CallEvent) -> bool
        ensures { IsPossible self.now next.now (OfCall call event) result }
    {
        match event {
            CallEvent::Begin { old } => self.could_begin(next, call, old),
            CallEvent::OnLine { .. } | CallEvent::Execute { .. } => {
                self.could_reach_gateway(next, call, event)
            }
            _ => self.could_reach_agent(next, call, event),
        }
    }
}
