//! Events of a call in which its agent takes no part: of a line, and a request that reaches the gateway. All that may want memory of the call's
//! messages comes first, so that what the gateway sends is never lost.
ghost use Rattle.std.specs.Prelude.{◌≡◌, ◌+◌, ◌<◌, length, option_map, Some};
ghost use Rattle.gateway.specs.GatewayValue.{gateway_of};
ghost use Rattle.shards.specs.CallRecords.{IsExecuted, IsHappenedOn, IsTied, request_in};

use crate::call_record::CallRecord;
use agent::Refusal;
use gateway::{Answer, Gateway};
use mg_model::failures::ChosenRefusal;
use mg_model::line_events::LineEvent;
use mg_names::identifiers::{CallNo, LineNo};
use requests::Request;

/// The request of a call with this number.
pub(crate) fn request(call_record: &CallRecord, number: u32) -> Option<&Request>
    ensures { option_map (λ r. r.now) result ≡ request_in call_record.now (Some number) }
{
    match call_record.agent.request() {
        Some(request) if request.number() == number => Some(request),
        _ => call_record.messages.request(Some(number)),
    }
}

/// The request of a call with this number reaches the gateway. `NotEnabled` where no such request was sent, or where the numbers of notes could
/// run out; `NoMemory` where memory ran out.
pub(crate) fn execute(
    gateway: &mut Gateway,
    call_record: &mut CallRecord,
    call: CallNo,
    number: u32,
    refusal: Option<ChosenRefusal>,
) -> Result<(), Refusal>
    requires tied { IsTied call_record.old }
    requires notes { ((gateway_of gateway.old).link call.0).notes ≡ length call_record.old.messages.sent.notes }
    requires events { call_record.old.events + 1 < 18446744073709551616 }
    ensures { IsExecuted gateway.old gateway.new call.0 number refusal call_record.old call_record.new result }
{
    let Some(sent) = request(call_record, number) else {
        return Err(Refusal::NotEnabled);
    };
    let commands = sent.commands().len();
    let Ok(()) = call_record.messages.room_for_notes(commands) else {
        return Err(Refusal::NoMemory);
    };
    let Some(sent) = request(call_record, number) else {
        return Err(Refusal::NotEnabled);
    };
    match gateway.execute(call, sent, refusal) {
        Answer::Executed { reply, notes } => {
            call_record.messages.answer(reply);
            call_record.messages.raise(notes);
        }
        Answer::Kept(reply) => call_record.messages.answer(reply),
        Answer::Discarded => {}
        Answer::CannotHappen => return Err(Refusal::NotEnabled),
        Answer::NoMemory => return Err(Refusal::NoMemory),
    }
    call_record.events += 1;
    Ok(())
}

/// An event of a line that the call is to hold. `NotEnabled` where it doesn't, or where the event can't happen; `NoMemory` where memory ran out.
pub(crate) fn happen(
    gateway: &mut Gateway,
    call_record: &mut CallRecord,
    call: CallNo,
    line: LineNo,
    event: LineEvent,
) -> Result<(), Refusal>
    requires notes { ((gateway_of gateway.old).link call.0).notes ≡ length call_record.old.messages.sent.notes }
    requires events { call_record.old.events + 1 < 18446744073709551616 }
    ensures { IsHappenedOn gateway.old gateway.new call.0 line.0 event call_record.old call_record.new result }
{
    if gateway.holder(line) != Some(call) {
        return Err(Refusal::NotEnabled);
    }
    let Ok(()) = call_record.messages.room_for_notes(1) else {
        return Err(Refusal::NoMemory);
    };
    let Ok(note) = gateway.happen(line, event) else {
        return Err(Refusal::NotEnabled);
    };
    if let Some(note) = note {
        call_record.messages.raise_one(note);
    }
    call_record.events += 1;
    Ok(())
}
