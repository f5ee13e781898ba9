//! The opening of a shard: a new gateway, on which its calls are opened one after the other, each with its record.
ghost use Rattle.std.specs.Prelude.{◌≡◌, ◌<◌, ◌≤◌, IfOk};
ghost use Rattle.std.specs.List.{flat_map};
ghost use Rattle.shards.specs.Opening.{AreOpenedRecords, IsOpenedOne, IsShardOpened};

use crate::call_record::CallRecord;
use crate::call_table::{self, CallTable};
use crate::fault::OpenFault;
use crate::messages::Messages;
use crate::opened::OpenedCall;
use crate::shard::Shard;
use agent::{Call, Next, Plain};
use composition::Checked;
use gateway::Gateway;
use mg_names::identifiers::LineNo;
use script_table::Script;
use std::alloc::{AllocError, Global};
use std::collections::HashMap;

/// A gateway with the records of the calls that are open on it, and those calls.
#[derive(Drop)]
struct Opened<'s> {
    gateway: Gateway,
    call_table: CallTable,
    nexts: Vec<Next<'s>>,
}

/// The lines of all calls, one after the other.
fn all_lines(alloc: Global, calls: &[OpenedCall]) -> Result<Vec<LineNo>, AllocError>
    ensures { IfOk result (λ lines. lines.items ≡ flat_map (λ one. one.lines.items) calls.now) }
{
    let mut lines = Vec::new(alloc);
    for call in calls {
        lines.extend_from_slice(call.lines.as_slice())?;
    }
    Ok(lines)
}

/// Opens a call on a gateway, with its record, and enters it.
fn open_one<'s>(
    alloc: Global,
    gateway: &mut Gateway,
    call_table: &mut CallTable,
    script: &'s Script,
    call: &OpenedCall,
) -> Result<Next<'s>, OpenFault>
    ensures { IsOpenedOne script.now gateway.old gateway.new call_table.old.entries call_table.new.entries call.now result }
{
    let lines = call.lines.as_slice();
    if lines.len() != script.lines() {
        return Err(OpenFault::WrongLines);
    }
    match gateway.open_call(call.call, lines) {
        Ok(()) => {}
        Err(gateway::OpenFault::NoMemory) => return Err(OpenFault::NoMemory),
        Err(gateway::OpenFault::UnknownLine | gateway::OpenFault::Taken) => {
            return Err(OpenFault::Taken);
        }
    }
    let call_record = CallRecord {
        agent: Plain::enter(alloc, script, call.call, lines),
        events: 0,
        messages: Messages::new(alloc, 1),
        settled: 0,
    };
    let Ok(()) = call_table::put(call_table, call.call, call_record) else {
        return Err(OpenFault::NoMemory);
    };
    match Call::enter(alloc, script, call.call, lines) {
        Ok(next) => Ok(next),
        Err(_) => Err(OpenFault::NoMemory),
    }
}

/// Opens calls on a new gateway of a class, one after the other.
fn open_all<'s>(
    alloc: Global,
    script: &'s Script,
    calls: &[OpenedCall],
    first: u32,
    stride: u32,
) -> Result<Opened<'s>, OpenFault>
    requires { first < stride }
    ensures { AreOpenedRecords script.now calls.now first stride result }
{
    let Ok(lines) = all_lines(alloc, calls) else {
        return Err(OpenFault::NoMemory);
    };
    let Ok(mut gateway) = Gateway::with_ids(alloc, lines.as_slice(), first, stride) else {
        return Err(OpenFault::NoMemory);
    };
    let mut call_table = HashMap::new(alloc);
    let mut nexts = Vec::new(alloc);
    for call in calls {
        let next = match open_one(alloc, &mut gateway, &mut call_table, script, call) {
            Ok(next) => next,
            Err(fault) => return Err(fault),
        };
        let Ok(()) = nexts.push(next) else {
            return Err(OpenFault::NoMemory);
        };
    }
    Ok(Opened {
        gateway,
        call_table,
        nexts,
    })
}

impl<'s> Shard<'s> {
    /// A shard with a new gateway in association 1, whose contexts and ephemerals are given numbers that leave `first` where they are divided by `stride`, 16 at most, and
    /// on it these calls of a checked script, each at rest in the start state on its lines, which are armed and on hook; and the calls themselves, in their
    /// order. Nothing has happened yet. The fault that the first call meets which doesn't open, or `NoMemory`. This profile's own.
    pub fn open(
        alloc: Global,
        checked: &'s Checked,
        calls: Vec<OpenedCall>,
        first: u32,
        stride: u32,
    ) -> Result<(Shard<'s>, Vec<Next<'s>>), OpenFault>
        requires class { first < stride }
        requires shards { stride ≤ 16 }
        ensures { IsShardOpened checked.now.table calls.items first stride result }
    {
        let script = checked.script();
        let Opened {
            gateway,
            call_table,
            nexts,
        } = match open_all(alloc, script, calls.as_slice(), first, stride) {
            Ok(opened) => opened,
            Err(fault) => return Err(fault),
        };
        let shard = Shard {
            alloc,
            script,
            first,
            stride,
            calls,
            gateway,
            call_table,
            history: Vec::new(alloc),
        };
        Ok((shard, nexts))
    }
}
