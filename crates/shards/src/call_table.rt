//! Records of calls, by number.
ghost use Rattle.std.specs.HashMap.{spare};
ghost use Rattle.std.specs.Prelude.{◌≡◌, ℕ, ◌<◌, ◌≤◌, ◌==◌, Some, None, Ok, if◌then◌else◌, option_map, OnOk};
ghost use Rattle.agent.specs.AgentValue.{agent_of};
ghost use Rattle.shards.specs.Beginnings.{HandsOver, IsBegunRecord};
ghost use Rattle.shards.specs.CallTable.{record_in, CountsNotes, ExecutesIn, HappensIn, IsReady, OthersStay, StepsIn};

use crate::call_record::CallRecord;
use crate::messages::Messages;
use crate::{at_agent, at_gateway};
use agent::{Next, Refusal};
use gateway::Gateway;
use mg_model::events::CallEvent;
use mg_model::failures::ChosenRefusal;
use mg_model::line_events::LineEvent;
use mg_names::identifiers::{CallNo, LineNo};
use script_table::Script;
use std::alloc::{AllocError, Global};
use std::collections::HashMap;

/// The record of each call that is open, and of no other.
pub(crate) type CallTable = HashMap<u32, CallRecord>;

/// The record of a call.
#[tactic(auto, unfolding(crate::specs::CallTable::record_in))]
pub(crate) fn call_record(call_table: &CallTable, call: CallNo) -> Option<&CallRecord>
    ensures { option_map (λ s. s.now) result ≡ record_in call_table.now.entries call.0 }
{
    call_table.get(&call.0)
}

/// A step of the agent of a call, and of the call that is handed in.
#[tactic(auto, unfolding(crate::specs::CallTable::record_in))]
pub(crate) fn step<'s>(
    call_table: &mut CallTable,
    script: &Script,
    next: Next<'s>,
    call: CallNo,
    event: CallEvent,
) -> (Next<'s>, Result<(), Refusal>)
    requires { IsReady (record_in call_table.old.entries call.0) }
    ensures stepped { StepsIn script.now next.entry event (record_in call_table.old.entries call.0) (record_in call_table.new.entries call.0) result.0 result.1 }
    ensures others { OthersStay call_table.old.entries call.0 call_table.new.entries }
{
    match call_table.get_mut(&call.0) {
        Some(call_record) => at_agent::step(call_record, script, next, event),
        None => (next, Err(Refusal::NotEnabled)),
    }
}

/// A request of a call reaches the gateway.
#[tactic(auto, unfolding(crate::specs::CallTable::record_in))]
pub(crate) fn execute(
    gateway: &mut Gateway,
    call_table: &mut CallTable,
    call: CallNo,
    number: u32,
    refusal: Option<ChosenRefusal>,
) -> Result<(), Refusal>
    requires ready { IsReady (record_in call_table.old.entries call.0) }
    requires notes { CountsNotes gateway.old call.0 (record_in call_table.old.entries call.0) }
    ensures executed { ExecutesIn gateway.old gateway.new call.0 number refusal (record_in call_table.old.entries call.0) (record_in call_table.new.entries call.0) result }
    ensures others { OthersStay call_table.old.entries call.0 call_table.new.entries }
{
    match call_table.get_mut(&call.0) {
        Some(call_record) => at_gateway::execute(gateway, call_record, call, number, refusal),
        None => Err(Refusal::NotEnabled),
    }
}

/// An event of a line of a call.
#[tactic(auto, unfolding(crate::specs::CallTable::record_in))]
pub(crate) fn happen(
    gateway: &mut Gateway,
    call_table: &mut CallTable,
    call: CallNo,
    line: LineNo,
    event: LineEvent,
) -> Result<(), Refusal>
    requires ready { IsReady (record_in call_table.old.entries call.0) }
    requires notes { CountsNotes gateway.old call.0 (record_in call_table.old.entries call.0) }
    ensures happened { HappensIn gateway.old gateway.new call.0 line.0 event (record_in call_table.old.entries call.0) (record_in call_table.new.entries call.0) result }
    ensures others { OthersStay call_table.old.entries call.0 call_table.new.entries }
{
    match call_table.get_mut(&call.0) {
        Some(call_record) => at_gateway::happen(gateway, call_record, call, line, event),
        None => Err(Refusal::NotEnabled),
    }
}

/// Makes room for one record more.
#[tactic(auto, unfolding(crate::specs::CallTable::record_in))]
pub(crate) fn reserve(call_table: &mut CallTable) -> Result<(), AllocError>
    ensures same { (c : ℕ) → record_in call_table.new.entries c ≡ record_in call_table.old.entries c }
    ensures room { OnOk result (0 < spare call_table.new) }
{
    call_table.reserve(1)
}

/// Puts the record of a call in place.
#[tactic(auto, unfolding(crate::specs::CallTable::record_in))]
pub(crate) fn put(
    call_table: &mut CallTable,
    call: CallNo,
    call_record: CallRecord,
) -> Result<(), AllocError>
    ensures put { OnOk result ((c : ℕ) → record_in call_table.new.entries c ≡ (if c == call.0 then Some call_record else record_in call_table.old.entries c)) }
    ensures succeeds { 0 < spare call_table.old → result ≡ Ok tt }
{
    call_table.insert(call.0, call_record)?;
    Ok(())
}

/// Takes the record of a call out, if there is one.
#[tactic(auto, unfolding(crate::specs::CallTable::record_in))]
fn take(call_table: &mut CallTable, call: CallNo) -> Option<CallRecord>
    ensures call_record { result ≡ record_in call_table.old.entries call.0 }
    ensures taken { (c : ℕ) → record_in call_table.new.entries c ≡ (if c == call.0 then None else record_in call_table.old.entries c) }
    ensures room { spare call_table.old ≤ spare call_table.new }
{
    call_table.remove(&call.0)
}

/// The record becomes that of a call that begins on the lines of its own.
fn renew(call_record: &mut CallRecord, alloc: Global, script: &Script, call: CallNo)
    ensures { IsBegunRecord script.now call.0 call_record.old call_record.new }
{
    let first = call_record.agent.next_number();
    call_record.agent.begin(script, call);
    call_record.events = 1;
    call_record.messages = Messages::new(alloc, first);
    call_record.settled = 0;
}

/// A call begins on the lines of another, and has its record in place of that one's. There is room, so it takes no memory.
pub(crate) fn hand_over(
    call_table: &mut CallTable,
    alloc: Global,
    script: &Script,
    old: CallNo,
    call: CallNo,
)
    requires { 0 < spare call_table.old }
    ensures { (s : CallRecord) → record_in call_table.old.entries old.0 ≡ Some s → HandsOver script.now call_table.old.entries call_table.new.entries old.0 call.0 s }
{
    let Some(mut call_record) = take(call_table, old) else {
        return;
    };
    renew(&mut call_record, alloc, script, call);
    // There is room, so this can't fail.
    let Ok(()) = put(call_table, call, call_record) else {
        return;
    };
}
