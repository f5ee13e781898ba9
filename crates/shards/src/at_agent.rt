//! Events of a call that are steps of its agent: the record's and that of the call that is handed in take the same step, or neither does.
ghost use Rattle.std.specs.Prelude.{◌≡◌, ◌+◌, ◌<◌};
ghost use Rattle.agent.specs.Calls.{refusal_of};
ghost use Rattle.shards.specs.CallRecords.{IsDelivered, IsStepped, IsTied};

use crate::call_record::CallRecord;
use crate::messages::Messages;
use agent::{Delivery, Next, PlainFault, Refusal};
use mg_model::events::CallEvent;
use script_table::Script;

/// What an event of a call brings its agent, of what was sent.
pub(crate) fn brought<'a>(messages: &'a Messages, event: &CallEvent) -> Option<Delivery<'a>>
    ensures { IsDelivered messages.now.sent event.now result }
{
    match *event {
        CallEvent::Reply { number } => Some(Delivery::Reply(messages.reply(Some(number))?)),
        CallEvent::Pass => Some(Delivery::Pass),
        CallEvent::Note { number } => Some(Delivery::Note(messages.note(number)?)),
        CallEvent::Timer => Some(Delivery::Timer),
        CallEvent::Hear { association } => Some(Delivery::Hear(association)),
        CallEvent::OnLine { .. } | CallEvent::Execute { .. } | CallEvent::Begin { .. } => None,
    }
}

/// The refusal of a step that an agent doesn't take.
fn refusal(fault: PlainFault) -> Refusal
    ensures { result ≡ refusal_of fault }
{
    match fault {
        PlainFault::NotEnabled => Refusal::NotEnabled,
        PlainFault::NoMemory => Refusal::NoMemory,
    }
}

/// The agent of a record and a call that is handed in take a step. `NotEnabled` where nothing of that kind was sent, or where one of the two can't take
/// it; `NoMemory` where memory ran out. Then both are as they were.
pub(crate) fn step<'s>(
    call_record: &mut CallRecord,
    script: &Script,
    next: Next<'s>,
    event: CallEvent,
) -> (Next<'s>, Result<(), Refusal>)
    requires tied { IsTied call_record.old }
    requires events { call_record.old.events + 1 < 18446744073709551616 }
    ensures { IsStepped script.now next.entry event call_record.old call_record.new result.0 result.1 }
{
    let Ok(()) = call_record.messages.room_to_send() else {
        return (next, Err(Refusal::NoMemory));
    };
    let Some(delivery) = brought(&call_record.messages, &event) else {
        return (next, Err(Refusal::NotEnabled));
    };
    let prepared = match call_record.agent.prepare(script, &delivery) {
        Ok(prepared) => prepared,
        Err(fault) => return (next, Err(refusal(fault))),
    };
    let (next, done) = next.advance(&delivery);
    if let Err(why) = done {
        call_record.agent.cancel(prepared);
        return (next, Err(why));
    }
    let sends = prepared.request().is_some();
    let over = call_record.agent.finish(prepared);
    call_record.messages.send(over, sends);
    call_record.events += 1;
    (next, Ok(()))
}
