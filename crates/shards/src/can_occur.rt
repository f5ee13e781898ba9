//! Whether an event of a call can happen in a shard, without the event and whatever call is handed in. It takes no memory.
ghost use Rattle.std.specs.Prelude.{◌≡◌, true, Some};
ghost use Rattle.mg_model.specs.declared.events.CallEvent.TheVariants.{Begin};
ghost use Rattle.agent.specs.Calls.{is_of_gateway};
ghost use Rattle.shards.specs.CanOccur.{IsOccurrence, IsTakeable, TellsOccurrence, record_call};
ghost use Rattle.shards.specs.CallTable.{record_in};
ghost use Rattle.shards.specs.Stepping.{IsAtAgent};

use crate::call_record::CallRecord;
use crate::could_happen::{could_execute, could_happen_on};
use crate::shard::Shard;
use crate::step::is_told;
use crate::{at_agent, begin, call_table};
use mg_model::events::CallEvent;
use mg_names::identifiers::CallNo;
use script_table::Script;

/// Whether what an event brings was sent, and the record's agent can take it.
fn is_takeable(call_record: &CallRecord, script: &Script, event: &CallEvent) -> bool
    ensures { IsTakeable script.now event.now call_record.now result }
{
    let Some(delivery) = at_agent::brought(&call_record.messages, event) else {
        return false;
    };
    call_record.agent.can_take(script, &delivery)
}

/// The call in whose record an event is looked for: of a beginning that on whose lines it is.
fn record_call(call: CallNo, event: &CallEvent) -> CallNo
    ensures { result.0 ≡ record_call call.0 event.now }
{
    match *event {
        CallEvent::Begin { old } => old,
        _ => call,
    }
}

impl<'s> Shard<'s> {
    /// Whether an event can reach the agent of a record.
    fn can_reach_agent(&self, call_record: &CallRecord, call: CallNo, event: CallEvent) -> bool
        requires agent { IsAtAgent event }
        requires held { record_in self.now.call_table call.0 ≡ Some call_record.now }
        ensures { IsOccurrence self.now call.0 event result }
    {
        if !is_told(&self.gateway, &event) {
            return false;
        }
        is_takeable(call_record, self.script, &event)
    }

    /// Whether an event can happen at the gateway, to the call of a record.
    fn can_reach_gateway(&self, call_record: &CallRecord, call: CallNo, event: CallEvent) -> bool
        requires gateway { is_of_gateway event ≡ true }
        requires held { record_in self.now.call_table call.0 ≡ Some call_record.now }
        ensures { IsOccurrence self.now call.0 event result }
    {
        match event {
            CallEvent::OnLine { line, event } => could_happen_on(&self.gateway, call, line, event),
            CallEvent::Execute { number, .. } => could_execute(
                &self.gateway,
                call_record,
                call,
                number,
            ),
            _ => false,
        }
    }

    /// Whether a call can begin on the lines of the call of a record.
    fn can_begin_on(&self, call_record: &CallRecord, call: CallNo, old: CallNo) -> bool
        requires held { record_in self.now.call_table old.0 ≡ Some call_record.now }
        ensures { IsOccurrence self.now call.0 (Begin old) result }
    {
        if !begin::has_ended(call_record, self.script, self.gateway.association()) {
            return false;
        }
        let Ok(()) = self.gateway.can_begin(old, call) else {
            return false;
        };
        true
    }

    /// Whether an event of a call that is open can happen, whatever call is handed in; nothing where the call isn't open, or that on whose lines another would
    /// begin. It looks at no other call, and not at the history.
    pub fn can_occur(&self, call: CallNo, event: CallEvent) -> Option<bool>
        ensures { TellsOccurrence self.now call.0 event result }
    {
        let call_record = call_table::call_record(&self.call_table, record_call(call, &event))?;
        Some(match event {
            CallEvent::Begin { old } => self.can_begin_on(call_record, call, old),
            CallEvent::OnLine { .. } | CallEvent::Execute { .. } => {
                self.can_reach_gateway(call_record, call, event)
            }
            _ => self.can_reach_agent(call_record, call, event),
        })
    }
}
